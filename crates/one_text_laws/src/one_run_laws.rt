ghost use Rattle.std.specs.Prelude.{ℕ, ◌≡◌, List, Option};
ghost use Rattle.station_base.specs.CivilMinute.{CivilMinute};
ghost use Rattle.settings_file.specs.StationSettings.{StationSettings};
ghost use Rattle.station_session.specs.Attempts.{MadeAttempt};
ghost use Rattle.schedule_file.specs.Fates.{FatesByNumber};
ghost use Rattle.station_sim.specs.Line.{Line};
ghost use Rattle.schedule_file.specs.declared.schedule.step.Stop.{Stop};
ghost use Rattle.replay_laws.specs.Schedule.{ReplayStep};
ghost use Rattle.replay_laws.specs.Keeping.{Archive};
ghost use Rattle.replay_laws.specs.Replay.{IsReplay, IsUnseen, IsWhole, Item, Stage};
ghost use Rattle.one_text_laws.specs.SameAttempt.{SameAttempt, AttemptOverLine};
ghost use Rattle.replay_laws.specs.Texts.{text};

/// From one line, under one round's fates, over one archive and after one stamp, an attempt has one talk, one list of taken
/// pages, one end and one line behind it. Its place is fixed if it took a page.
pub fn an_attempt_is_fixed()
    ensures { (settings : StationSettings) (stop : Option Stop) (f : FatesByNumber) (stored : ℕ) (a : Archive)
        (after : Option CivilMinute)
        (w v x : Line) (t u : MadeAttempt) → AttemptOverLine settings stop f stored a after w t v
        → AttemptOverLine settings stop f stored a after w u x → SameAttempt t u × (v ≡ x) }
{}

/// A schedule has one text: all its runs from one stage, with the same settings, write the same, whether they come to their
/// end or to an unseen delivery.
pub fn a_run_has_one_text()
    ensures { (settings : StationSettings) (from : Stage) (steps : List ReplayStep) (o other : List Item)
        → IsReplay settings from steps o → IsReplay settings from steps other → text o ≡ text other }
{}

/// All runs of a schedule are of one kind: if one comes to its end, none comes to an unseen delivery.
pub fn a_run_has_one_kind()
    ensures { (settings : StationSettings) (from : Stage) (steps : List ReplayStep) (o other : List Item)
        → IsWhole settings from steps o → IsUnseen settings from steps other → ⊥ }
{}

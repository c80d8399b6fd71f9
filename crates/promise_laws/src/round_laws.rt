ghost use Rattle.std.specs.Prelude.{ℕ, List};
ghost use Rattle.settings_file.specs.StationSettings.{StationSettings};
ghost use Rattle.replay_laws.specs.Kept.{Kept};
ghost use Rattle.replay_laws.specs.Replay.{Item, IsReplay, Stage};
ghost use Rattle.replay_laws.specs.Schedule.{ReplayStep};
ghost use Rattle.promise_laws.specs.Places.{SomeItem};
ghost use Rattle.promise_laws.specs.Rounds.{SomeRound, DropsAcknowledgedPages, DropsPagesSaid, LeavesNewerRecord, LeavesHalfPage};
ghost use Rattle.promise_laws.specs.Rounds.{GivesUpEarly, GivesUpUnharmed};

/// Nothing is lost: a run in which a dump gave fewer rows than records stand on its acknowledged pages is not kept. And no run has a
/// round in which 0x06 was said right after pages, and which did not keep their rows.
pub fn no_acknowledged_page_is_dropped()
    ensures counted { (settings : StationSettings) (records : List (List ℕ)) (items : List Item)
        → SomeItem (SomeRound (DropsAcknowledgedPages settings records)) items → ¬ Kept settings records items }
    ensures said { (settings : StationSettings) (s : Stage) (steps : List ReplayStep) (items : List Item)
        → SomeItem (SomeRound (DropsPagesSaid settings)) items → ¬ IsReplay settings s steps items }
{}

/// Nothing is left behind: nor is one with a round that ended ok, and whose last dump did not give each newer record.
pub fn no_newer_record_is_left_behind()
    ensures { (settings : StationSettings) (records : List (List ℕ)) (items : List Item)
        → SomeItem (SomeRound (LeavesNewerRecord settings records)) items → ¬ Kept settings records items }
{}

/// No half pages: nor is one in which a stop leaves other rows than those of whole pages.
pub fn no_half_page_is_left()
    ensures { (settings : StationSettings) (records : List (List ℕ)) (items : List Item)
        → SomeItem (SomeRound (LeavesHalfPage settings)) items → ¬ Kept settings records items }
{}

/// No giving up without a reason: nor is one with a round that gave up after fewer attempts than there may be.
pub fn no_round_gives_up_early()
    ensures { (settings : StationSettings) (records : List (List ℕ)) (items : List Item)
        → SomeItem (SomeRound GivesUpEarly) items → ¬ Kept settings records items }
{}

/// No giving up without a reason: nor is one with a round that gave up, though an attempt had no harmed delivery.
pub fn no_round_gives_up_unharmed()
    ensures { (settings : StationSettings) (records : List (List ℕ)) (items : List Item)
        → SomeItem (SomeRound GivesUpUnharmed) items → ¬ Kept settings records items }
{}

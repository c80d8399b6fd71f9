ghost use Rattle.std.specs.Prelude.{ℕ, List, Option};
ghost use Rattle.settings_file.specs.StationSettings.{StationSettings};
ghost use Rattle.station_session.specs.Attempts.{all_said};
ghost use Rattle.station_sim.specs.declared.unseen.Unseen.{Unseen};
ghost use Rattle.schedule_file.specs.Fates.{FatesByNumber};
ghost use Rattle.station_sim.specs.Talk.{started};
ghost use Rattle.station_sim.specs.UnseenTalk.{HasUnseen};
ghost use Rattle.schedule_file.specs.declared.schedule.step.Stop.{Stop};
ghost use Rattle.replay_laws.specs.Replay.{IsUnseenRound, IsRound, Item, Rounded, Stage};
ghost use Rattle.replay_laws.specs.Round.{made_attempts};

/// A run ends at a round just for an unseen delivery: what such a round names is one of the unseen deliveries of its attempts, and a
/// round that a run goes on from has none.
pub fn unseen_rounds()
    ensures named { (settings : StationSettings) (f : FatesByNumber) (stop : Option Stop) (s : Stage) (i : Item)
        → (broken : IsUnseenRound settings f stop s i)
        → HasUnseen f (all_said broken.tried) (started s.line) broken.which }
    ensures none { (settings : StationSettings) (f : FatesByNumber) (left : ℕ
        → List (List ℕ)) (stop : Option Stop) (s u : Stage) (r : Rounded)
        → IsRound settings f left stop s r u → (which : Unseen)
        → ¬ (HasUnseen f (all_said (made_attempts r.tried)) (started s.line) which) }
{}

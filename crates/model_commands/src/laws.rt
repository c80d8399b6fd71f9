ghost use Rattle.std.specs.Prelude.{ℕ, ◌≡◌, ◌∷◌, ◌++◌, List, Option};
ghost use Rattle.eeprom_map.specs.Memory.{new_memory};
ghost use Rattle.loop_packet.specs.declared.packet.LoopPacket.{LoopPacket};
ghost use Rattle.settings_file.specs.StationSettings.{StationSettings};
ghost use Rattle.schedule_file.specs.Fates.{FatesByNumber};
ghost use Rattle.replay_laws.specs.Replay.{Item, Runs, Stage, start};
ghost use Rattle.schedule_file.specs.declared.schedule.step.Stop.{Stop};
ghost use Rattle.replay_laws.specs.Schedule.{ReplayStep};
ghost use Rattle.model_commands.specs.ConsoleRun.{HaveNoRound, console_served};

/// The console that is served is the one that a run of the same steps, from a new console of the same period and packet, has as its
/// first round begins, or at its end if it has no round.
pub fn a_served_console_is_that_of_a_run()
    ensures first_round { (settings : StationSettings) (period : ℕ) (packet : LoopPacket) (xs ys : List ReplayStep)
        (f : FatesByNumber)
        (left : ℕ → List (List ℕ)) (stop : Option Stop) → HaveNoRound xs → (is : List Item) (u : Stage)
        → Runs settings xs (start (new_memory period) packet) is u
        → console_served period packet (xs ++ ReplayStep.Round f left stop ∷ ys) ≡ u.line.console }
    ensures no_round { (settings : StationSettings) (period : ℕ) (packet : LoopPacket) (xs : List ReplayStep)
        → HaveNoRound xs
        → (is : List Item) (u : Stage) → Runs settings xs (start (new_memory period) packet) is u
        → console_served period packet xs ≡ u.line.console }
{}

ghost use Rattle.std.specs.Prelude.{ℕ, List};
ghost use Rattle.loop_packet.specs.declared.packet.LoopPacket.{LoopPacket};
ghost use Rattle.settings_file.specs.StationSettings.{StationSettings};
ghost use Rattle.replay_laws.specs.Kept.{Kept};
ghost use Rattle.replay_laws.specs.Replay.{Item, IsReplay, start};
ghost use Rattle.replay_laws.specs.Schedule.{IsSchedule, ReplayStep, records};

/// The promises can be kept: each schedule has a run that is kept.
pub fn each_schedule_has_a_kept_run()
    ensures { (settings : StationSettings) (eeprom : List ℕ) (packet : LoopPacket) (steps : List ReplayStep)
        → IsSchedule steps
        → (items : List Item) × IsReplay settings (start eeprom packet) steps items × Kept settings (records steps) items }
{}

//! Each schedule has a run.
#![tactic(auto)]

ghost use Rattle.std.specs.Prelude.{ℕ, List};
ghost use Rattle.loop_packet.specs.declared.packet.LoopPacket.{LoopPacket};
ghost use Rattle.settings_file.specs.StationSettings.{StationSettings};
ghost use Rattle.replay_laws.specs.Schedule.{ReplayStep, IsSchedule};
ghost use Rattle.replay_laws.specs.Replay.{Item, IsReplay, start};

/// Each schedule has a run by the rules: the items that it gives, to its end or to the first delivery that was unseen.
pub fn every_schedule_has_a_run()
    ensures { (settings : StationSettings) (eeprom : List ℕ) (packet : LoopPacket) (steps : List ReplayStep)
        → IsSchedule steps → (o : List Item) × IsReplay settings (start eeprom packet) steps o }
{}

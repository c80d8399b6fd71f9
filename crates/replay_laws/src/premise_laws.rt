ghost use Rattle.std.specs.Prelude.{◌≡◌, ◌-◌, ◌<◌, ◌≤◌, ℕ, [], ◌∷◌, List, Option, None};
ghost use Rattle.station_base.specs.CivilMinute.{CivilMinute};
ghost use Rattle.loop_packet.specs.declared.packet.LoopPacket.{LoopPacket};
ghost use Rattle.vantage_frames.specs.StampFrame.{stamp_frame_of};
ghost use Rattle.console_ring.specs.Picture.{plan_of_last};
ghost use Rattle.console_ring.specs.History.{ring_size};
ghost use Rattle.console_model.specs.Console.{Console};
ghost use Rattle.console_model.specs.Console.ConsoleState.{Command};
ghost use Rattle.console_model.specs.Spelling.{plan_after};
ghost use Rattle.dmpaft_pump.specs.Batch.{batches, records_in};
ghost use Rattle.station_sim.specs.Calm.{IsCalm};
ghost use Rattle.schedule_file.specs.Lists.{no_fates};
ghost use Rattle.station_sim.specs.Sound.{AreRecords, IsSound, AreSound};
ghost use Rattle.station_sim.specs.Talk.{fresh_line};
ghost use Rattle.line_laws.specs.Gathers.{newer_held};
ghost use Rattle.replay_laws.specs.Minutes.{minute_records, new_line, filled_line};
ghost use Rattle.replay_laws.specs.Schedule.{ReplayStep, IsSchedule};
ghost use Rattle.replay_laws.specs.WholeAttempt.{WholeAttempt};

/// There is a calm line, and there are fates: those of a new console, where nothing befalls a message.
pub fn a_new_line_is_calm()
    ensures line { (eeprom : List ℕ) (packet : LoopPacket) → IsCalm (new_line eeprom packet)
        × IsSound (new_line eeprom packet) }
    ensures fates { AreSound no_fates }
{}

/// An attempt can be whole: on a line to whatever console that is awake, of whatever records, and after whatever stamp, no delivery
/// being harmed.
pub fn an_attempt_can_be_whole()
    ensures { (c : Console) → c.state ≡ Command [] → c.held ≡ [] → c.idle ≡ 0 → AreRecords c.history
        → (after : Option CivilMinute) → WholeAttempt after (fresh_line c) }
{}

/// More records can be put than an archive keeps. Those of minutes in a row, from 2000-01-01 00:00 on, are a schedule's, and a new
/// console puts them all. Of more than 2,560 the last 2,560 are held, and the dump of all that is held has just these.
pub fn an_archive_can_overflow()
    ensures schedule { (count : ℕ) → count ≤ 40320 → IsSchedule (ReplayStep.Due (minute_records 0 count) ∷ []) }
    ensures put { (count : ℕ) → count ≤ 40320 → (eeprom : List ℕ) (packet : LoopPacket)
        → let w = filled_line count eeprom packet in
        (w.console.history ≡ minute_records 0 count) × IsCalm w × IsSound w }
    ensures held { (count : ℕ) → ring_size < count
        → newer_held None (minute_records 0 count) ≡ minute_records (count - ring_size) ring_size }
    ensures plan { (count : ℕ) → ring_size < count → count ≤ 40320
        → plan_after (minute_records 0 count) (stamp_frame_of None) ≡ plan_of_last ring_size count }
{}

/// Such an archive can be taken: a whole attempt after no stamp gives the last 2,560 records.
pub fn an_overflowed_archive_can_be_taken()
    ensures { (count : ℕ) → ring_size < count → count ≤ 40320 → (eeprom : List ℕ) (packet : LoopPacket)
        → (a : WholeAttempt None (filled_line count eeprom packet))
        × (records_in (batches None a.place a.taken) ≡ minute_records (count - ring_size) ring_size) }
{}

ghost use Rattle.std.specs.Prelude.{◌≡◌, ◌≢◌, ◌⊎◌, List, ℕ, true, false, length};
ghost use Rattle.causes.specs.Cause.{Cause};
ghost use Rattle.loop_packet.specs.declared.packet.LoopPacket.{LoopPacket};
ghost use Rattle.replay_laws.specs.Replay.{start};
ghost use Rattle.replay_laws.specs.Schedule.{records};
ghost use Rattle.schedule_steps.specs.Accepted.{AreAccepted, ScheduleIsAccepted};
ghost use Rattle.schedule_replay.specs.Replayed.{ReplayIsCutOff, IsNewDisk, IsReplayed, TookPart, steps_in};
ghost use Rattle.schedule_replay.specs.Standing.{LineAt};
ghost use Rattle.schedule_steps.specs.Steps.{steps_for};
ghost use Rattle.schedule_replay.specs.Told.{TellsFront, TellsRun};

use crate::teller::Teller;
use crate::turns::{ReplayRun, ReplayTurn};
use disk_model::{MemDisk, Stopping};
use schedule_file::{Schedule, Step};
use settings_file::Settings;
use station_io::Sink;
use station_sim::Sim;
use std::alloc::Global;

/// How the replay of a schedule ended.
#[derive(Clone, Copy, Debug, PartialEq, Eq)]
pub enum ReplayEnd {
    /// All steps were taken, the archive was opened where it was closed, and all is told.
    Done,
    /// A delivery of a round was unseen: one that was harmed and passes for whole. What was before it is told, and its
    /// item.
    Unseen,
    /// A write failed. A prefix of what was to be told was told.
    WriteFault,
    /// The run found no memory. A prefix of what was to be told was told.
    OutOfMemory,
}

/// Replays a schedule: the records fall due at the modelled console, each round of the session is played over the line,
/// and the archive is recovered from the disk, which stops where the schedule says so. What comes of it is written,
/// item by item.
pub fn replay<K: Sink>(
    alloc: Global,
    settings: &Settings,
    schedule: &Schedule,
    line: &mut Sim,
    disk: &mut Stopping<MemDisk>,
    out: &mut K,
) -> ReplayEnd
    requires period { schedule.now.period ≡ settings.now.period }
    requires accepted { ScheduleIsAccepted schedule.now }
    requires line { (eeprom : List ℕ) × (packet : LoopPacket) × LineAt (start eeprom packet) line.old
        × IsNewDisk schedule.now.records eeprom packet disk.old }

    // The headline: what is written is the run of the schedule, and all of it is kept.
    ensures done { result ≡ ReplayEnd.Done → (eeprom : List ℕ) (packet : LoopPacket)
        → LineAt (start eeprom packet) line.old
        → IsReplayed false settings.now (start eeprom packet) (steps_in schedule.now) (K.outlet.taken out.old)
        (K.outlet.taken out.new) }
    ensures unseen { result ≡ ReplayEnd.Unseen → (eeprom : List ℕ) (packet : LoopPacket)
        → LineAt (start eeprom packet) line.old
        → IsReplayed true settings.now (start eeprom packet) (steps_in schedule.now) (K.outlet.taken out.old)
        (K.outlet.taken out.new) }
    ensures cut_off { (result ≡ ReplayEnd.WriteFault) ⊎ (result ≡ ReplayEnd.OutOfMemory)
        → (eeprom : List ℕ) (packet : LoopPacket)
        → LineAt (start eeprom packet) line.old
        → ReplayIsCutOff settings.now (start eeprom packet) (steps_in schedule.now) (K.outlet.taken out.old)
        (K.outlet.taken out.new) }

    // `done` again, of a run in which the line and the disk that were handed in took part.
    ensures took_part { result ≡ ReplayEnd.Done → (eeprom : List ℕ) (packet : LoopPacket)
        → LineAt (start eeprom packet) line.old
        → (run : IsReplayed false settings.now (start eeprom packet) (steps_in schedule.now) (K.outlet.taken out.old)
        (K.outlet.taken out.new))
        × TookPart settings.now (start eeprom packet) (steps_in schedule.now) run.items line.old line.new disk.new }

    ensures write_fault { Cause (K.outlet.faults out.old) (K.outlet.faults out.new) (result ≡ ReplayEnd.WriteFault) }
    ensures sink_still { result ≢ ReplayEnd.WriteFault → K.outlet.faults out.new ≡ K.outlet.faults out.old }
{
    replay_steps(alloc, settings, schedule.steps(), line, disk, out)
}

/// Replays the steps of a schedule as `replay` does, and tells each item to the teller as soon as it is known.
pub fn replay_steps<T: Teller>(
    alloc: Global,
    settings: &Settings,
    steps: &[Step],
    line: &mut Sim,
    disk: &mut Stopping<MemDisk>,
    teller: &mut T,
) -> ReplayEnd
    requires accepted { AreAccepted settings.now.period steps.now }
    requires line { (eeprom : List ℕ) × (packet : LoopPacket) × LineAt (start eeprom packet) line.old
        × IsNewDisk (length (records (steps_for settings.now.period steps.now))) eeprom packet disk.old }

    ensures done { result ≡ ReplayEnd.Done → (eeprom : List ℕ) (packet : LoopPacket)
        → LineAt (start eeprom packet) line.old
        → TellsRun T.telling false settings.now (start eeprom packet) (steps_for settings.now.period steps.now)
        teller.old teller.new }
    ensures unseen { result ≡ ReplayEnd.Unseen → (eeprom : List ℕ) (packet : LoopPacket)
        → LineAt (start eeprom packet) line.old
        → TellsRun T.telling true settings.now (start eeprom packet) (steps_for settings.now.period steps.now)
        teller.old teller.new }
    ensures cut_off { (result ≡ ReplayEnd.WriteFault) ⊎ (result ≡ ReplayEnd.OutOfMemory)
        → (eeprom : List ℕ) (packet : LoopPacket)
        → LineAt (start eeprom packet) line.old
        → TellsFront T.telling settings.now (start eeprom packet) (steps_for settings.now.period steps.now)
        teller.old teller.new }
    ensures took_part { result ≡ ReplayEnd.Done → (eeprom : List ℕ) (packet : LoopPacket)
        → LineAt (start eeprom packet) line.old
        → (run : TellsRun T.telling false settings.now (start eeprom packet) (steps_for settings.now.period steps.now)
        teller.old teller.new)
        × TookPart settings.now (start eeprom packet) (steps_for settings.now.period steps.now) run.items
        line.old line.new disk.new }
    ensures write_fault { Cause (T.telling.faults teller.old) (T.telling.faults teller.new)
        (result ≡ ReplayEnd.WriteFault) }
    ensures still { result ≢ ReplayEnd.WriteFault → T.telling.faults teller.new ≡ T.telling.faults teller.old }
{
    let mut run = ReplayRun::new(alloc, settings);
    'turns: loop {
        match run.turn(steps, line, disk, teller) {
            ReplayTurn::More => {}
            ReplayTurn::Ended => return ReplayEnd::Done,
            ReplayTurn::Unseen => return ReplayEnd::Unseen,
            ReplayTurn::WriteFault => return ReplayEnd::WriteFault,
            ReplayTurn::OutOfMemory => return ReplayEnd::OutOfMemory,
        }
    }
}

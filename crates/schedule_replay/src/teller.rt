ghost use Rattle.std.specs.Prelude.{◌≡◌, ◌≢◌, List, Err, [], ◌∷◌, false, true};
ghost use Rattle.causes.specs.Cause.{Cause};
ghost use Rattle.station_base.specs.declared.row.Row.{Row};
ghost use Rattle.settings_file.specs.StationSettings.{StationSettings};
ghost use Rattle.replay_laws.specs.Replay.{Item, Rounded, is_stop};
ghost use Rattle.round_play.specs.Resting.{SessionGoesOn};
ghost use Rattle.schedule_replay.specs.RoundLine.{RoundLineTells, ending_of};
ghost use Rattle.schedule_replay.specs.Telling.{Telling, TellsAll};
ghost use Rattle.schedule_replay.specs.Writing.{IsOnlyRead, IsReadable};

use crate::cut::Cut;
use crate::round_line::RoundLine;
use disk_model::{MemDisk, Stopping};
use station_session::Session;
use station_sim::Unseen;

/// One who is told the items of a run, each as soon as it is known. Each telling answers `WriteFault` only where the
/// teller's count of faults rose, and takes no memory.
pub trait Teller {
    /// What tellers of this kind tell.
    ghost telling: { Telling Self };

    /// The archive was opened. Of its rows so many were told before.
    fn opened(
        &mut self,
        session: &Session,
        disk: &mut Stopping<MemDisk>,
        told: u64,
    ) -> Result<(), Cut>
        requires { IsReadable session.now disk.old }
        ensures tells { (settings : StationSettings) (rows : List Row)
            → SessionGoesOn settings rows session.now disk.old
            → TellsAll telling self.old (Item.Opened rows told ∷ []) result self.new }
        ensures disk { IsOnlyRead disk.old disk.new }
        ensures cause { Cause (telling.faults self.old) (telling.faults self.new) (result ≡ Err Cut.WriteFault) }
        ensures still { result ≢ Err Cut.WriteFault → telling.faults self.new ≡ telling.faults self.old };

    /// The disk stopped within this change of an opening, counted from 1 on.
    fn open_stopped(&mut self, change: u64) -> Result<(), Cut>
        ensures tells { (rows : List Row)
            → TellsAll telling self.old (Item.OpenStopped change rows ∷ []) result self.new }
        ensures cause { Cause (telling.faults self.old) (telling.faults self.new) (result ≡ Err Cut.WriteFault) }
        ensures still { result ≢ Err Cut.WriteFault → telling.faults self.new ≡ telling.faults self.old };

    /// A round was made. Of the archive's rows so many were told before. Behind a stop the session reads no rows.
    fn round(
        &mut self,
        session: &Session,
        disk: &mut Stopping<MemDisk>,
        line: &RoundLine,
        told: u64,
    ) -> Result<(), Cut>
        requires { is_stop (ending_of line.now.end) ≡ false → IsReadable session.now disk.old }
        ensures tells { (x : Rounded) → RoundLineTells line.now told x
            → (is_stop x.end ≡ false → (settings : StationSettings)
            × SessionGoesOn settings x.rows session.now disk.old)
            → TellsAll telling self.old (Item.Ran x ∷ []) result self.new }
        ensures disk { IsOnlyRead disk.old disk.new }
        ensures stopped { is_stop (ending_of line.now.end) ≡ true → disk.new ≡ disk.old }
        ensures cause { Cause (telling.faults self.old) (telling.faults self.new) (result ≡ Err Cut.WriteFault) }
        ensures still { result ≢ Err Cut.WriteFault → telling.faults self.new ≡ telling.faults self.old };

    /// In the round of this number a delivery was unseen.
    fn unseen(&mut self, number: u32, which: Unseen) -> Result<(), Cut>
        ensures tells { TellsAll telling self.old (Item.Unsaid number which ∷ []) result self.new }
        ensures cause { Cause (telling.faults self.old) (telling.faults self.new) (result ≡ Err Cut.WriteFault) }
        ensures still { result ≢ Err Cut.WriteFault → telling.faults self.new ≡ telling.faults self.old };

    /// The run ended, with the rows of the session.
    fn ended(&mut self, session: &Session, disk: &mut Stopping<MemDisk>) -> Result<(), Cut>
        requires { IsReadable session.now disk.old }
        ensures tells { (settings : StationSettings) (rows : List Row)
            → SessionGoesOn settings rows session.now disk.old
            → TellsAll telling self.old (Item.Ended rows ∷ []) result self.new }
        ensures disk { IsOnlyRead disk.old disk.new }
        ensures cause { Cause (telling.faults self.old) (telling.faults self.new) (result ≡ Err Cut.WriteFault) }
        ensures still { result ≢ Err Cut.WriteFault → telling.faults self.new ≡ telling.faults self.old };
}

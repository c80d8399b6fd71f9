use crate::cut::Cut;
use crate::round_line::RoundLine;
use crate::teller::Teller;
use crate::writing::{write_end, write_opening, write_round, write_stopped_opening, write_unseen};
use disk_model::{MemDisk, Stopping};
use station_io::Sink;
use station_session::Session;
use station_sim::Unseen;

/// A sink is told the items as text, each as its lines.
impl<K: Sink> Teller for K {
    ghost use Rattle.schedule_replay.specs.TextTelling.{text_telling};

    ghost telling = { text_telling K.outlet };

    fn opened(
        &mut self,
        session: &Session,
        disk: &mut Stopping<MemDisk>,
        told: u64,
    ) -> Result<(), Cut> {
        write_opening(session, disk, self, told)
    }

    fn open_stopped(&mut self, change: u64) -> Result<(), Cut> {
        write_stopped_opening(self, change)
    }

    fn round(
        &mut self,
        session: &Session,
        disk: &mut Stopping<MemDisk>,
        line: &RoundLine,
        told: u64,
    ) -> Result<(), Cut> {
        write_round(session, disk, self, line, told)
    }

    fn unseen(&mut self, number: u32, which: Unseen) -> Result<(), Cut> {
        write_unseen(self, number, which)
    }

    fn ended(&mut self, session: &Session, disk: &mut Stopping<MemDisk>) -> Result<(), Cut> {
        write_end(session, disk, self)
    }
}

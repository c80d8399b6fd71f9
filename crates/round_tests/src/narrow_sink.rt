ghost use Rattle.station_outside.specs.UntoldSink.{untold_outlet};

use causes::raised;
use station_io::{MemSink, Put, Sink};
use std::alloc::Global;
use std::test::Fail;

// A sink with room for so many bytes. Of a piece that does not fit it takes the prefix that does, and fails.
#[derive(Drop)]
pub(crate) struct NarrowSink {
    pub(crate) taken: MemSink,
    room: usize,
    faults: u64,
}

impl NarrowSink {
    pub(crate) fn new(alloc: Global, room: usize) -> Result<NarrowSink, Fail> {
        Ok(NarrowSink {
            taken: MemSink::new(alloc, room)?,
            room,
            faults: 0,
        })
    }
}

impl Sink for NarrowSink {
    ghost outlet = { untold_outlet (λ sink. sink.faults) };

    #[tactic(auto, using(causes::proofs::WritesInTurn::writes_nothing, station_outside::proofs::SinkWrites::some_written))]
    fn put(&mut self, bytes: &[u8]) -> Put {
        let (front, rest) = bytes.split_at(bytes.len().min(self.room));
        self.room -= front.len();
        let taken = self.taken.put(front);
        if rest.is_empty() && taken == Put::Done {
            return Put::Done;
        }
        self.faults = raised(self.faults);
        Put::Failed
    }
}

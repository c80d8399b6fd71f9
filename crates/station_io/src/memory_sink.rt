ghost use Rattle.std.specs.Prelude.{◌≡◌, ◌≢◌, ◌↔◌, ◌≤◌, ◌+◌, [], IfOk, Some, length};
ghost use Rattle.station_io.specs.Memory.{bucket_outlet};
ghost use Rattle.station_io.specs.Sink.{Emits};

use crate::sink::{Put, Sink};
use causes::{OutOfMemory, raised};
use std::alloc::Global;
use std::marker::Model;

/// A sink in memory, of a fixed capacity in bytes.
#[derive(Debug, Drop)]
pub struct MemSink {
    bytes: Vec<u8>,
    capacity: usize,
    faults: u64,
}

impl Model for MemSink {
    ghost use Rattle.std.specs.Prelude.{◌≤◌, vec_len, vec_capacity};
    ghost use Rattle.station_io.specs.Memory.{Bucket};

    ghost Value = { Bucket };

    ghost view = { λ a. record { bytes = a.bytes.items; capacity = a.capacity; faults = a.faults } };

    ghost invariant = { λ a. (vec_len a.bytes ≤ a.capacity) × (a.capacity ≤ vec_capacity a.bytes) };
}

impl MemSink {
    /// An empty sink. All its memory is taken here.
    pub fn new(alloc: Global, capacity: usize) -> Result<Self, OutOfMemory>
        ensures bytes { IfOk result (λ sink. sink.bytes ≡ []) }
        ensures capacity { IfOk result (λ sink. sink.capacity ≡ capacity) }
        ensures faults { IfOk result (λ sink. sink.faults ≡ 0) }
    {
        Ok(MemSink {
            bytes: Vec::with_capacity(alloc, capacity)?,
            capacity,
            faults: 0,
        })
    }

    /// What was taken, in order.
    pub fn bytes(&self) -> &[u8]
        ensures { result.now ≡ self.now.bytes }
    {
        &self.bytes
    }
}

impl Sink for MemSink {
    ghost outlet = { bucket_outlet };

    #[tactic(auto, using(causes::proofs::WritesInTurn::writes_nothing))]
    /// A piece that does not fit is a counted fault, and nothing of it is taken.
    fn put(&mut self, bytes: &[u8]) -> Put
        ensures emits { Emits bucket_outlet self.old bytes.now result self.new }
        ensures fits { result ≡ Put.Done ↔ (length self.old.bytes + length bytes.now ≤ self.old.capacity) }
        ensures refused { result ≡ Put.Failed → self.new.bytes ≡ self.old.bytes }
        ensures capacity { self.new.capacity ≡ self.old.capacity }
    {
        if bytes.len() > self.capacity - self.bytes.len() {
            self.faults = raised(self.faults);
            return Put::Failed;
        }
        self.bytes.extend_from_slice(bytes).unwrap();
        Put::Done
    }
}

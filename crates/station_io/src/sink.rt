ghost use Rattle.std.specs.Prelude.{◌<◌, length};
ghost use Rattle.station_io.specs.Sink.{Emits, Outlet};

/// What came of a write.
#[derive(Clone, Copy, Debug, PartialEq, Eq)]
pub enum Put {
    /// All the bytes were taken.
    Done,
    /// The write failed, and the fault was counted.
    Failed,
}

/// Takes bytes, in order.
pub trait Sink {
    /// What is told of the sink.
    ghost outlet: { Outlet Self };

    /// Appends the bytes. After `Failed` a front of them may have been appended. Only a write that
    /// failed is counted.
    fn put(&mut self, bytes: &[u8]) -> Put
        requires { 0 < length bytes.now }
        ensures { Emits outlet self.old bytes.now result self.new };
}

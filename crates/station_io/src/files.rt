ghost use Rattle.std.specs.Prelude.{◌≡◌, []};
ghost use Rattle.station_io.specs.Files.{Loads, Shelf};

use std::alloc::Global;

/// The most bytes that a file may have: 16 MiB, by this project's profile.
pub const LONGEST: usize = 16_777_216;

/// What came of the reading of a file.
#[derive(Clone, Copy, Debug, PartialEq, Eq)]
pub enum TextRead {
    /// The whole file was read.
    Done,
    /// The file could not be read, and the fault was counted.
    Failed,
    /// The file has more than `LONGEST` bytes, of which the first `LONGEST` were read.
    TooLong,
    /// There was no memory for the bytes.
    OutOfMemory,
}

/// Files that are read whole, by name.
pub trait Files {
    /// What is told of the files.
    ghost shelf: { Shelf Self };

    /// Reads the named file into an empty buffer. What every name holds stays as it was, and only
    /// a reading that failed is counted.
    fn text(&mut self, alloc: Global, name: &str, into: &mut Vec<u8>) -> TextRead
        requires { into.old.items ≡ [] }
        ensures { Loads shelf self.old name.now result into.new.items self.new };
}

ghost use Rattle.std.specs.Prelude.{◌≡◌, ◌≢◌, ◌≤◌, ◌+◌, ◌⊎◌, ◌++◌, [], length, option_copied};
ghost use Rattle.station_io.specs.Files.{ReadingGives, most_bytes};
ghost use Rattle.station_io.specs.Named.{file_named};

use crate::files::{Files, LONGEST, TextRead};
use causes::raised;
use std::alloc::Global;
use std::marker::Model;

/// A file in memory.
#[derive(Debug, Drop)]
pub struct MemFile {
    /// The name by which it is asked for.
    pub name: String,
    /// All that it holds.
    pub bytes: Vec<u8>,
}

/// Files in memory, whose calls fail at given numbers. Of two files of one name the first counts.
#[derive(Debug, Drop)]
pub struct MemFiles {
    files: Vec<MemFile>,
    failing: Vec<u64>,
    calls: u64,
    faults: u64,
}

impl Model for MemFiles {
    ghost use Rattle.station_io.specs.Memory.{Folder};

    ghost Value = { Folder };

    ghost view = { λ a. record
        { files = a.files.items; failing = a.failing.items; calls = a.calls; faults = a.faults } };
}

impl MemFiles {
    /// The files, of which the calls with these numbers, counted from 1, fail. A call for a name that is not
    /// among them fails too. No memory is taken.
    pub fn new(files: Vec<MemFile>, failing: Vec<u64>) -> Self
        ensures files { result.files ≡ files.items }
        ensures failing { result.failing ≡ failing.items }
        ensures calls { result.calls ≡ 0 }
        ensures faults { result.faults ≡ 0 }
    {
        MemFiles {
            files,
            failing,
            calls: 0,
            faults: 0,
        }
    }
}

impl Files for MemFiles {
    ghost use Rattle.station_io.specs.Memory.{folder_shelf};

    ghost shelf = { folder_shelf };

    fn text(&mut self, _alloc: Global, name: &str, into: &mut Vec<u8>) -> TextRead {
        self.calls = raised(self.calls);
        if self.failing.contains(&self.calls) {
            self.faults = raised(self.faults);
            return TextRead::Failed;
        }
        match find(&self.files, name) {
            Some(bytes) => copy(bytes, into),
            None => {
                self.faults = raised(self.faults);
                TextRead::Failed
            }
        }
    }
}

// The bytes of the first file of that name.
fn find<'a>(files: &'a [MemFile], name: &str) -> Option<&'a [u8]>
    ensures { option_copied result ≡ file_named files.now name.now }
{
    for file in files {
        if file.name.as_str() == name {
            return Some(&file.bytes);
        }
    }
    None
}

// Copies what a file may have at most.
fn copy(bytes: &[u8], into: &mut Vec<u8>) -> TextRead
    requires { into.old.items ≡ [] }
    ensures gives { ReadingGives bytes.now result into.new.items }
    ensures within { length into.new.items ≤ most_bytes }
    ensures full { result ≡ TextRead.TooLong → length into.new.items ≡ most_bytes }
    ensures never { result ≢ TextRead.Failed }
{
    if bytes.len() > LONGEST {
        append(&bytes[..LONGEST], into, TextRead::TooLong)
    } else {
        append(bytes, into, TextRead::Done)
    }
}

// Appends the bytes and answers so, unless memory runs out.
fn append(bytes: &[u8], into: &mut Vec<u8>, answer: TextRead) -> TextRead
    ensures answer { (result ≡ TextRead.OutOfMemory)
        ⊎ ((result ≡ answer) × (into.new.items ≡ into.old.items ++ bytes.now)) }
    ensures within { length into.new.items ≤ length into.old.items + length bytes.now }
{
    match into.extend_from_slice(bytes) {
        Ok(()) => answer,
        Err(_) => TextRead::OutOfMemory,
    }
}

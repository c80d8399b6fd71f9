ghost use Rattle.std.specs.Prelude.{◌≡◌, ◌≤◌, ◌<◌, ◌≢◌, ⊤, [], None, IfOk, IsErr, length, vec_len};
ghost use Rattle.causes.specs.Told.{WhereTold};
ghost use Rattle.station_io.specs.Files.{ReadingGives, most_bytes};

use crate::outcome::{Outcome, understand};
use causes::raised;
use station_io::{Files, LONGEST, TextRead};
use std::alloc::{AllocError, Global};
use std::io::{self, Read};
use std::{fs, rt};

/// How many bytes are asked for at a time.
const CHUNK: usize = 65_536;

/// The files of the system. What they hold is not told.
#[derive(Drop)]
pub struct StdFiles<'a, R> {
    runtime: &'a R,
    faults: u64,
}

impl<'a, R> StdFiles<'a, R> {
    /// The files that this runtime opens, of which none has failed yet.
    pub fn new(runtime: &'a R) -> Self {
        StdFiles { runtime, faults: 0 }
    }
}

impl<R: rt::Files> Files for StdFiles<'_, R> {
    ghost shelf = { record { held = λ _ _. None; faults = λ files. files.faults; loaded = λ _ _ _ _. ⊤ } };

    /// A name that cannot be opened, and a file of which a read fails, is a counted fault.
    fn text(&mut self, alloc: Global, name: &str, into: &mut Vec<u8>) -> TextRead {
        let answer = read_opened(alloc, fs::open(self.runtime, name), into);
        if answer == TextRead::Failed {
            self.faults = raised(self.faults);
        }
        answer
    }
}

// Reads what was opened. What could not be opened could not be read.
pub(crate) fn read_opened<F: Read + Drop>(
    alloc: Global,
    opened: io::Result<F>,
    into: &mut Vec<u8>,
) -> TextRead
    requires { into.old.items ≡ [] }
    ensures failed { IsErr opened → result ≡ TextRead.Failed }
    ensures gives { IfOk opened
        (λ file. WhereTold (F.remaining file) (λ bytes. ReadingGives bytes result into.new.items)) }
    ensures within { length into.new.items ≤ most_bytes }
    ensures full { result ≡ TextRead.TooLong → length into.new.items ≡ most_bytes }
{
    match opened {
        Ok(mut file) => read_front(alloc, &mut file, into),
        Err(_) => TextRead::Failed,
    }
}

/// Reads to the end, or as much as a file may have. A read that a signal interrupted is made again.
pub fn read_front<F: Read>(alloc: Global, file: &mut F, into: &mut Vec<u8>) -> TextRead
    requires { into.old.items ≡ [] }
    ensures gives { WhereTold (F.remaining file.old) (λ bytes. ReadingGives bytes result into.new.items) }
    ensures within { length into.new.items ≤ most_bytes }
    ensures full { result ≡ TextRead.TooLong → length into.new.items ≡ most_bytes }
{
    let Ok(mut chunk) = empty_chunk(alloc) else {
        return TextRead::OutOfMemory;
    };
    for _ in 0..u64::MAX {
        let count = match understand(file.read(&mut chunk)) {
            Outcome::Moved(count) => count,
            Outcome::Ended => return TextRead::Done,
            Outcome::Interrupted => continue,
            Outcome::Waited | Outcome::Failed => return TextRead::Failed,
        };
        let room = LONGEST - into.len();
        if count > room {
            if into.extend_from_slice(&chunk[..room]).is_err() {
                return TextRead::OutOfMemory;
            }
            return TextRead::TooLong;
        }
        if into.extend_from_slice(&chunk[..count]).is_err() {
            return TextRead::OutOfMemory;
        }
    }
    TextRead::Failed
}

// Room for the bytes that one call reads.
fn empty_chunk(alloc: Global) -> Result<Vec<u8>, AllocError>
    ensures { IfOk result (λ chunk. 0 < vec_len chunk) }
{
    vec![in alloc; 0u8; CHUNK]
}

ghost use Rattle.std.specs.Prelude.{◌≡◌, ◌↔◌, IsTrue, IsOk};
ghost use Rattle.gated_log.specs.Log.{empty_archive};
ghost use Rattle.station_outside.specs.NewArchive.{MayBeNewArchive, is_left_of};

use std::io::{self, ErrorKind};

/// Bytes of an archive without rows: the head and a closed gate.
pub(crate) const NEW_SIZE: usize = 177;

// What it begins with. The rest is zeros.
const MARK: &[u8; 8] = b"DVARCH02";

// What a byte of a disk is that was never written, or was erased.
const ZEROS: u8 = 0;

const ONES: u8 = 255;

// An archive without rows.
fn new_archive() -> [u8; NEW_SIZE]
    ensures { result ≡ empty_archive }
{
    let mut bytes = [0; NEW_SIZE];
    bytes[..MARK.len()].copy_from_slice(MARK);
    bytes
}

// Whether a power cut may leave this where a byte was being written.
fn is_left_of(wanted: u8, byte: u8) -> bool
    ensures { result ≡ is_left_of wanted byte }
{
    byte == wanted || byte == ZEROS || byte == ONES
}

/// Whether a file of these bytes may be a new archive that a power cut kept from being made.
pub fn may_be_new_archive(bytes: &[u8]) -> bool
    ensures { IsTrue result ↔ MayBeNewArchive bytes.now }
{
    if bytes.len() > NEW_SIZE {
        return false;
    }
    let whole = new_archive();
    for i in 0..bytes.len() {
        if !is_left_of(whole[i], bytes[i]) {
            return false;
        }
    }
    true
}

// Refuses what may not be a new archive.
pub(crate) fn refuse_unless_new(bytes: &[u8]) -> io::Result<()>
    ensures { IsOk result ↔ MayBeNewArchive bytes.now }
{
    if may_be_new_archive(bytes) {
        Ok(())
    } else {
        Err(ErrorKind::InvalidInput.into())
    }
}

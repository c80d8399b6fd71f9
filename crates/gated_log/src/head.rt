ghost use Rattle.std.specs.Prelude.{◌≡◌, ◌≤◌, IfSome, length};
ghost use Rattle.gated_log.specs.Log.{breaks};
ghost use Rattle.gated_log.specs.Walk.{BeginWith};

use crate::layout::{MOST_IN_A_BATCH, SLOT_BYTES};
use byteorder::{ByteOrder, LittleEndian};

// Where the number of a batch's slots stands, from the batch's gate.
pub(crate) const SIZE_FROM: usize = 2;

// The bytes of a batch that tell where it ends: the gate, a kind, and the number of its slots.
pub(crate) const HEAD_SIZE: usize = 4;

// Whether no batch of n slots is there, with a gate behind it.
pub(crate) fn is_broken(n: u64, left: u64) -> bool
    ensures { result ≡ breaks n left }
{
    n == 0 || n > MOST_IN_A_BATCH as u64 || left <= SLOT_BYTES * n
}

// How many slots the batch has that these bytes begin with, in a file of so many bytes more. None where its gate is
// closed, or where no batch is.
pub(crate) fn open_batch(bytes: &[u8], left: u64) -> Option<u64>
    requires { HEAD_SIZE ≤ length bytes.now }
    ensures { IfSome result (BeginWith bytes.now left) }
{
    let n = u64::from(LittleEndian::read_u16(&bytes[SIZE_FROM..]));
    let broken = is_broken(n, left);
    if bytes[0] == 0 || broken {
        None
    } else {
        Some(n)
    }
}

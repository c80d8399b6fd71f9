ghost use Rattle.std.specs.Prelude.{◌≡◌, ◌<◌, ◌≤◌, ◌+◌, ◌*◌, ◌^◌, false, List, ℕ, IfOk, IsErr, is_err, length, take, drop};
ghost use Rattle.causes.specs.Told.{WhereTold};
ghost use Rattle.disk_model.specs.Disk.{Stays, Faults};
ghost use Rattle.gated_log.specs.Calls.{LookedOn};
ghost use Rattle.gated_log.specs.Visits.{IsShown};
ghost use Rattle.gated_log.specs.Walk.{IsOpenAt, WalksOn};
ghost use Rattle.gated_log.specs.Layout.{slot_size, most_in_a_batch};

use crate::head::{HEAD_SIZE, open_batch};
use crate::layout::{LONGEST_BATCH, SLOT_BYTES, SLOT_SIZE};
use crate::show::show;
use crate::{Version, Visitor};
use disk_model::{Disk, DiskFault};

// So many batches, as long as they may be, one read of the chain brings at most.
const PIECE_BATCHES: usize = 4;

// How many bytes of the chain one read brings, at most. A batch that the last bytes cut is read again, so that few bytes
// are read twice where batches are shorter.
pub(crate) const PIECE_SIZE: usize = PIECE_BATCHES * LONGEST_BATCH;

// Shows a visitor the slots of the batches that stand whole in these bytes, one behind another, in a file of so many
// bytes from there on. How many they are. A batch with a closed gate ends them, and so does a place where no batch is.
fn show_batches<V: Visitor>(
    visitor: &mut V,
    version: Version,
    place: u64,
    piece: &[u8],
    left: u64,
) -> u64
    requires order { place ≡ slot_size * (V.visits.count visitor.old + 1) }
    requires held { length piece.now ≤ left }
    requires fits { place + left < 2 ^ 64 }
    ensures shown { IsShown V.visits version visitor.old result (λ slots. (c : List ℕ) → length c ≡ place + left
        → piece.now ≡ take (length piece.now) (drop place c) → WalksOn c place slots) visitor.new }
    ensures within { 0 < left → slot_size * result < left }
{
    let mut slots: u64 = 0;
    let mut at: usize = 0;
    while at + HEAD_SIZE <= piece.len() {
        let Some(n) = open_batch(&piece[at..], left - at as u64) else {
            return slots;
        };
        let size = SLOT_SIZE * n as usize;
        if size > piece.len() - at {
            return slots;
        }
        show(visitor, version, place + at as u64, &piece[at..at + size]);
        slots += n;
        at += size;
    }
    slots
}

// Reads a piece of a file of this length from a place on, and shows a visitor the slots of the batches that stand whole in
// it, one behind another. How many they are.
pub(crate) fn show_piece<D: Disk, V: Visitor>(
    disk: &mut D,
    visitor: &mut V,
    version: Version,
    place: u64,
    len: u64,
    piece: &mut [u8; PIECE_SIZE],
) -> Result<u64, DiskFault>
    requires order { place ≡ slot_size * (V.visits.count visitor.old + 1) }
    requires within { place < len }
    ensures shown { IfOk result (λ count. IsShown V.visits version visitor.old count
        (λ slots. WhereTold (D.medium.seen disk.old) (λ c. length c ≡ len → WalksOn c place slots)) visitor.new) }
    ensures within { IfOk result (λ count. place + slot_size * count < len) }
    ensures stays { Stays D.medium disk.old disk.new }
    ensures cause { Faults D.medium disk.old disk.new (IsErr result) }
    ensures went { LookedOn D.medium len len (is_err result) disk.old disk.new }
{
    let left = len - place;
    let held = left.min(PIECE_SIZE as u64) as usize;
    disk.read(place, &mut piece[..held]).ok()?;
    Ok(show_batches(visitor, version, place, &piece[..held], left))
}

// Reads a batch of so many slots at a place of a file of this length, and shows them to a visitor.
pub(crate) fn show_batch<D: Disk, V: Visitor>(
    disk: &mut D,
    visitor: &mut V,
    version: Version,
    place: u64,
    count: u64,
    piece: &mut [u8; PIECE_SIZE],
) -> Result<(), DiskFault>
    requires order { place ≡ slot_size * (V.visits.count visitor.old + 1) }
    requires some { 0 < count }
    requires most { count ≤ most_in_a_batch }
    requires fits { place + slot_size * count < 2 ^ 64 }
    ensures shown { IfOk result (λ _. IsShown V.visits version visitor.old count
        (λ slots. WhereTold (D.medium.seen disk.old) (λ c. place < length c → IsOpenAt c place count false
        → WalksOn c place slots)) visitor.new) }
    ensures stays { Stays D.medium disk.old disk.new }
    ensures cause { Faults D.medium disk.old disk.new (IsErr result) }
    ensures went { (len : ℕ) → place + slot_size * count ≤ len
        → LookedOn D.medium len len (is_err result) disk.old disk.new }
{
    let size = SLOT_SIZE * count as usize;
    disk.read(place, &mut piece[..size]).ok()?;
    show(visitor, version, place, &piece[..size]);
    Ok(())
}

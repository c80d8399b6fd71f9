ghost use Rattle.std.specs.Prelude.{◌≡◌, ◌<◌, ◌+◌, ◌*◌, ◌/◌, ◌^◌, length};
ghost use Rattle.gated_log.specs.Log.{in_slots, as_handed};
ghost use Rattle.gated_log.specs.Layout.{slot_size};

use crate::head::SIZE_FROM;
use crate::layout::{SLOT_BYTES, SLOT_SIZE};
use crate::{Version, Visitor};

/// A slot with its gate and the number of its batch's slots 0, as it was handed to a log.
pub fn without_marks(slot: &[u8; SLOT_SIZE]) -> [u8; SLOT_SIZE]
    ensures { result ≡ as_handed slot.now }
{
    let mut bytes = *slot;
    bytes[0] = 0;
    bytes[SIZE_FROM] = 0;
    bytes[SIZE_FROM + 1] = 0;
    bytes
}

// Shows a visitor the slots of a batch, as they were handed in. The first of them stands at this place of the file.
pub(crate) fn show<V: Visitor>(visitor: &mut V, version: Version, place: u64, batch: &[u8])
    requires order { place ≡ slot_size * (V.visits.count visitor.old + 1) }
    requires some { 0 < length batch.now }
    requires whole { length batch.now ≡ slot_size * (length batch.now / slot_size) }
    requires fits { place + length batch.now < 2 ^ 64 }
    ensures { V.visits.saw version visitor.old (in_slots (length batch.now / slot_size) (as_handed batch.now))
        visitor.new }
{
    let (slots, _) = batch.as_chunks::<SLOT_SIZE>();
    visitor.visit(version, place, &without_marks(&slots[0]));
    for k in 1..slots.len() {
        visitor.visit(version, place + SLOT_BYTES * k as u64, &slots[k]);
    }
}

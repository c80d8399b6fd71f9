ghost use Rattle.std.specs.Prelude.{◌≡◌, ◌+◌, ◌*◌, ◌^◌, ◌<◌, [], ◌∷◌};
ghost use Rattle.gated_log.specs.Layout.{slot_size};
ghost use Rattle.gated_log.specs.Visits.{Visits};

use crate::Version;
use crate::layout::SLOT_SIZE;

/// One who is shown the slots of a log as it is recovered, so that a file is read once.
pub trait Visitor {
    /// What slots are to visitors of this kind.
    ghost visits: { Visits Self };

    /// The next slot of an archive of this version, which stands at this place of the file. Its gate and the number of its
    /// batch's slots are 0, as in the slots that are handed to a log.
    fn visit(&mut self, version: Version, place: u64, slot: &[u8; SLOT_SIZE])
        requires order { place ≡ slot_size * (visits.count self.old + 1) }
        requires fits { place + slot_size < 2 ^ 64 }
        ensures { visits.saw version self.old (slot.now ∷ []) self.new };
}

ghost use Rattle.std.specs.Prelude.{◌≡◌, ◌≤◌, true, vec_len};
ghost use Rattle.archive_record.specs.Record.{IsRecord, reads_as_row};
ghost use Rattle.schedule_file.specs.InOrder.{is_in_order};
ghost use Rattle.schedule_file.specs.Limits.{most_mids};

use crate::fate::Fate;
use archive_record::Rec52;
use std::collections::BTreeMap;

/// The records that fall due in a round, at most.
pub const MOST_MIDS: usize = 64;

/// The quiet waits that a reply can be late, at most.
pub const MOST_WAITS: u8 = 2;

/// How late a reply comes: so many waits stand before the byte at a place of what comes of it.
#[derive(Clone, Copy)]
pub struct Late {
    pub waits: u8,
    pub place: u32,
    ghost mild: { waits ≤ 2 },
}

/// A record that falls due in the middle of a round: after the host's message of this number.
#[derive(Clone, Copy)]
pub struct Mid {
    pub number: u32,
    pub rec: Rec52,
    ghost size: { IsRecord rec },
    ghost row: { reads_as_row rec ≡ true },
}

/// What becomes of the messages of one round, and which records fall due in it. Messages of the host, and replies, are
/// numbered from 1.
#[derive(Drop)]
pub struct Fates {
    /// What becomes of the host's messages of these numbers; the others come as sent.
    pub host: BTreeMap<u32, Fate>,
    /// What becomes of the replies of these numbers; the others come as sent.
    pub replies: BTreeMap<u32, Fate>,
    /// How late the replies of these numbers come; the others are in time.
    pub lates: BTreeMap<u32, Late>,
    /// The records that fall due in the round, in the order of their messages.
    pub mids: Vec<Mid>,
    ghost few: { vec_len mids ≤ most_mids },
    ghost ordered: { is_in_order (λ m. m.number) 0 mids.items ≡ true },
}

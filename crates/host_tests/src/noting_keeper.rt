ghost use Rattle.std.specs.Prelude.{◌≡◌, ◌≤◌};
ghost use Rattle.station_base.specs.LastStamp.{last_stamp};
ghost use Rattle.archive_record.specs.Reading.{stamp_in};

use archive_record::Rec52;
use arrayvec::ArrayVec;
use dmpaft_pump::{Keeper, Kept};
use station_base::Stamp;

/// A keeper that answers alike to each batch, and notes the letters of the records that it keeps.
#[derive(Drop)]
pub struct Notes {
    /// What it answers.
    pub answer: Kept,
    /// The letters of the records that it kept, as far as there is room.
    pub kept: ArrayVec<u8, 32>,
    /// The stamp of the last record that it kept.
    pub last: Option<Stamp>,
    /// How many batches more it takes.
    pub room: u16,
}

impl Keeper for Notes {
    ghost ledger = { record {
      last = λ k. k.last;
      room = λ k. k.room;
      keeps = λ k steps l. Unit {0};
      keeps_none = λ k. tt;
      keeps_joins = λ k l m first later one two. tt;
    } };

    fn keep(&mut self, rows: &[Rec52]) -> Kept {
        self.room -= 1;
        match self.answer {
            Kept::Done => {
                note(&mut self.kept, rows);
                self.last = last_of(rows, self.last);
                Kept::Done
            }
            Kept::Full => Kept::Full,
            Kept::Stale => Kept::Stale,
            Kept::DiskFault => Kept::DiskFault,
        }
    }
}

// Adds the letters of records, as far as there is room.
fn note(kept: &mut ArrayVec<u8, 32>, rows: &[Rec52]) {
    for row in rows {
        let _ = kept.try_push(row.bytes()[2].wrapping_add(96));
    }
}

/// The stamp of the last record, or the one before if there is none.
pub fn last_of(rows: &[Rec52], before: Option<Stamp>) -> Option<Stamp>
    ensures { result ≡ last_stamp stamp_in rows.now before }
{
    let mut last = before;
    for row in rows {
        last = Some(row.stamp());
    }
    last
}

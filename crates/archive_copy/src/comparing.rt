ghost use Rattle.std.specs.Prelude.{◌≡◌, ◌≢◌, ◌<◌, ◌≤◌, List, length, slice_get, take};
ghost use Rattle.std.specs.Bool.{Decides};
ghost use Rattle.causes.specs.Told.{WhereTold};
ghost use Rattle.disk_model.specs.Disk.{Faults, Stays};
ghost use Rattle.gated_log.specs.Calls.{Looked};
ghost use Rattle.station_base.specs.declared.row.Row.{Row};
ghost use Rattle.weather_book.specs.Book.{BookStandsFor, len_of};
ghost use Rattle.packed_rows.specs.Rows.{slot_total};
ghost use Rattle.weather_book.specs.Stands.{StandsToReadOn};
ghost use Rattle.archive_copy.specs.Calls.{from_failed, to_failed};
ghost use Rattle.batch_adding.specs.Calls.{slots_end};
ghost use Rattle.archive_copy.specs.Comparing.{Compares};

use arrayvec::ArrayVec;
use disk_model::Disk;
use station_base::{Row, Stamp};
use weather_book::{Book, RowsAnswer};

// How the rows of two books compare.
#[derive(Clone, Copy)]
pub enum Compared {
    // The rows of the one are the first of the other.
    Front,
    // The row of this number is the first that the other one does not have there.
    UnlikeAt(u64),
    // A call of the disk of the other one failed.
    FromFault,
    // A call of the disk of the one failed.
    ToFault,
}

// Whether two stamps are the same minute.
fn is_same_stamp(held: &Stamp, stamp: &Stamp) -> bool
    ensures { Decides result (held.now ≡ stamp.now) }
{
    held.date_word() == stamp.date_word() && held.time_word() == stamp.time_word()
}

// Whether two rows are the same.
fn is_same(held: &Row, row: &Row) -> bool
    ensures { Decides result (held.now ≡ row.now) }
{
    if held.interval != row.interval || held.limited != row.limited {
        return false;
    }
    if held.values != row.values {
        return false;
    }
    is_same_stamp(&held.stamp, &row.stamp)
}

// How many rows at the begin are the same.
pub fn alike(held: &[Row], rows: &[Row]) -> usize
    ensures within_held { result ≤ length held.now }
    ensures within_rows { result ≤ length rows.now }
    ensures same { take result held.now ≡ take result rows.now }
    ensures unlike { result < length held.now → result < length rows.now
        → slice_get held.now result ≢ slice_get rows.now result }
{
    let most = held.len().min(rows.len());
    for n in 0..most {
        if !is_same(&held[n], &rows[n]) {
            return n;
        }
    }
    most
}

// Whether the rows of a book are the first of another one.
pub fn compare<D: Disk, E: Disk>(theirs: &Book, from: &mut D, mine: &Book, to: &mut E) -> Compared
    ensures compares { (theirs_rows mine_rows : List Row) → StandsToReadOn D.medium theirs.now from.old theirs_rows
        → StandsToReadOn E.medium mine.now to.old mine_rows → WhereTold (D.medium.seen from.old) (λ _.
        WhereTold (E.medium.seen to.old) (λ _. Compares result mine_rows theirs_rows)) }
    ensures no_more { result ≡ Compared.Front → len_of mine.now ≤ len_of theirs.now }
    ensures from_stays { Stays D.medium from.old from.new }
    ensures to_stays { Stays E.medium to.old to.new }
    ensures from_cause { Faults D.medium from.old from.new (result ≡ Compared.FromFault) }
    ensures to_cause { Faults E.medium to.old to.new (result ≡ Compared.ToFault) }
    ensures from_went { (rows : List Row) → BookStandsFor theirs.now rows
        → Looked D.medium (slots_end (slot_total rows)) (from_failed result) from.old from.new }
    ensures to_went { (rows : List Row) → BookStandsFor mine.now rows
        → Looked E.medium (slots_end (slot_total rows)) (to_failed result) to.old to.new }
{
    let both = theirs.len().min(mine.len());
    let mut at = 0;
    while at < both {
        let mut rows = ArrayVec::new();
        if let RowsAnswer::DiskFault = theirs.rows_at(from, at, &mut rows) {
            return Compared::FromFault;
        }
        let mut held = ArrayVec::new();
        if let RowsAnswer::DiskFault = mine.rows_at(to, at, &mut held) {
            return Compared::ToFault;
        }
        let same = alike(&held, &rows);
        at += same as u64;
        if same < held.len() && same < rows.len() {
            return Compared::UnlikeAt(at);
        }
    }
    if both < mine.len() {
        Compared::UnlikeAt(both)
    } else {
        Compared::Front
    }
}

ghost use Rattle.std.specs.Prelude.{◌≡◌, ◌≤◌, ◌<◌, ◌+◌, ◌-◌, ◌/◌, ◌^◌, ◌++◌, [], ◌∷◌, ℕ, List, length, min, refl, vec_len, vec_capacity};
ghost use Rattle.weather_book.specs.Book.{last_stamp_of};
ghost use Rattle.station_session.specs.Holding.{holding};
ghost use Rattle.station_session.specs.OneBatch.{AddsBatch, Chain};
ghost use Rattle.station_session.specs.Room.{batch_room};

use crate::correct::stored_rows;
use crate::report::{Mark, note};
use archive_record::Rec52;
use disk_model::Disk;
use dmpaft_pump::{Keeper, Kept};
use settings_file::Settings;
use weather_book::Book;

// A book that keeps the records of a dump: each batch is corrected and added, and then marked.
#[derive(Drop)]
pub struct BookKeeper<'a, D> {
    pub book: &'a mut Book,
    pub settings: &'a Settings,
    pub disk: &'a mut D,
    pub marks: &'a mut Vec<Mark>,
}

impl<'a, D: Disk> Keeper for BookKeeper<'a, D> {
    ghost use Rattle.station_session.specs.BookLedger.{book_ledger};

    ghost ledger = { book_ledger D.medium };

    fn keep(&mut self, records: &[Rec52]) -> Kept {
        let rows = stored_rows(self.settings, records);
        match self.book.add(self.disk, &rows) {
            Kept::Done => {
                let mark = Mark {
                    moment: self.disk.moment(),
                    rows: self.book.len(),
                };
                note(self.marks, mark);
                Kept::Done
            }
            refused => refused,
        }
    }
}

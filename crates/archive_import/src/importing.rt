ghost use Rattle.std.specs.Prelude.{◌≡◌, Ok};
ghost use Rattle.causes.specs.Told.{WhereTold};
ghost use Rattle.disk_model.specs.Disk.{BeginsChanges, Faults, MayBegin};
ghost use Rattle.row_text.specs.RowsOfText.{row_count_of, rows_of_text};
ghost use Rattle.batch_adding.specs.Adding.{changes_to_fill};
ghost use Rattle.archive_import.specs.Texts.{text_rows};
ghost use Rattle.archive_import.specs.Importing.{AddsLater, ImportAnswers, ImportMoves, IsImported, LeavesLater};

use crate::adding::add_rows;
use crate::end::{ImportEnd, Imported};
use crate::passing::pass_over;
use batch_adding::{BatchEnd, open_to};
use disk_model::Disk;
use row_text::TextRows;
use station_base::MOST_ROWS;
use std::alloc::Global;

/// Adds the rows of a text, so many, whose stamps exceed that of the archive's last row, in order, `BATCH` rows a batch and the
/// last batch with what is left. The text was judged by `count_rows`, and is read a second time, so that no list of its rows is
/// kept.
///
/// The refusals of the archive come first, and then Full. It takes the memory of a book.
pub fn import_rows<E: Disk>(alloc: Global, text: &[u8], count: u64, to: &mut E) -> ImportEnd
    requires room { MayBegin E.medium changes_to_fill to.old }
    requires judged { row_count_of (rows_of_text text.now) ≡ Ok count }
    ensures answers { WhereTold (E.medium.seen to.old) (ImportAnswers result (text_rows text.now)) }
    ensures fault { Faults E.medium to.old to.new (result ≡ ImportEnd.Fault) }
    ensures begun { BeginsChanges E.medium changes_to_fill to.old to.new }
    ensures went { AddsLater E.medium result (text_rows text.now) to.old to.new }
    ensures moved { WhereTold (E.medium.seen to.old)
        (ImportMoves result (E.medium.moment to.old) (E.medium.moment to.new)) }

    // Where each image at its start has some rows, each image since then has these, and then none or more of the next rows of
    // the text.
    ensures images { LeavesLater E.medium result (text_rows text.now) to.old to.new }

    // With Done the archive has just its old rows and these.
    ensures imported { (done : Imported) → result ≡ ImportEnd.Done done
        → WhereTold (E.medium.seen to.old) (IsImported E.medium (text_rows text.now) to.new) }
{
    let mut mine = match open_to(alloc, to) {
        Ok(book) => book,
        Err(why) => return ImportEnd::not_opened(why),
    };
    let mut lines = TextRows::of(text);
    let mut behind = pass_over(&mut lines, count, mine.last());
    let added = behind.count;
    let held = mine.len();
    let most = u64::from(MOST_ROWS);
    if held > most || added > most - held {
        return ImportEnd::Full;
    }
    match add_rows(&mut lines, &mut behind.first, added, &mut mine, to) {
        BatchEnd::Done => ImportEnd::Done(Imported {
            added,
            passed: count - added,
            rows: held + added,
        }),
        BatchEnd::Fault => ImportEnd::Fault,
        BatchEnd::OutOfMemory => ImportEnd::OutOfMemory,
    }
}

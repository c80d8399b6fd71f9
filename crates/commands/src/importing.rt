ghost use Rattle.std.specs.Prelude.{◌≡◌, ◌<◌, ◌^◌};
ghost use Rattle.commands.specs.ImportRun.{bad_rows, import_output, imported_line, imports_on, rows_judged};
ghost use Rattle.row_text.specs.RowsOfText.{row_count_of, rows_of_text};
ghost use Rattle.run_output.specs.Ended.{output_of};
ghost use Rattle.run_output.specs.Outside.{means};

use crate::recovering::{damaged, not_archive, old_version};
use archive_import::{ImportEnd, Imported, import_rows};
use disk_model::Disk;
use itoa::Buffer;
use row_text::{BadLine, count_rows};
use run_output::{Ending, Outside, Status, Text, attach, read};
use serial_link::Link;
use station_base::push_bytes;
use station_io::{Files, Sink};
use std::alloc::Global;

/// Reads a text of rows and judges it. Then it attaches the archive, which is made where there is none, and adds the rows of
/// the text that are later than its last one.
#[inline(never)]
pub fn import_text<F: Files, K: Sink, L: Link, D: Disk>(
    alloc: Global,
    rows: &str,
    archive: &str,
    outside: &mut Outside<F, K, L, D>,
) -> Result<Text, Ending>
    requires { D.medium.moment outside.old.disk < 2 ^ 63 }
    ensures { imports_on
        (means F.shelf K.outlet L.traffic D.medium) rows.now archive.now outside.old result outside.new }
{
    let text = read(alloc, &mut outside.files, rows)?;
    let count = judge(&text)?;
    attach(&mut outside.disk, archive, true)?;
    let end = import_rows(alloc, &text, count, &mut outside.disk);
    given(end)
}

// How many rows a text has, or the ending of a text that is not one of rows.
fn judge(text: &[u8]) -> Result<u64, Ending>
    ensures { result ≡ rows_judged (row_count_of (rows_of_text text.now)) }
{
    match count_rows(text) {
        Ok(count) => Ok(count),
        Err(bad) => Err(bad_line(bad)),
    }
}

// The ending of a text with this line at fault.
fn bad_line(bad: BadLine) -> Ending
    ensures { result ≡ bad_rows bad }
{
    let mut text = Text::new();
    push_bytes(&mut text, b"row line ");
    push_bytes(&mut text, Buffer::new().format(bad.line).as_bytes());
    push_bytes(&mut text, b" fault ");
    push_bytes(&mut text, Buffer::new().format(bad.fault.kind()).as_bytes());
    push_bytes(&mut text, b"\n");
    Ending::new(text, Status::BadRows)
}

// What is given of an import that ended so.
fn given(end: ImportEnd) -> Result<Text, Ending>
    ensures { output_of result ≡ import_output end }
{
    match end {
        ImportEnd::Done(done) => Ok(imported(done)),
        ImportEnd::Full => Err(Ending::with_line(b"archive full\n", Status::ArchiveFull)),
        ImportEnd::NotArchive(bytes) => Err(not_archive(&bytes)),
        ImportEnd::OldVersion => Err(old_version()),
        ImportEnd::Damaged(place) => Err(damaged(place)),
        ImportEnd::Fault => Err(Ending::with_line(b"disk fault\n", Status::DiskFault)),
        ImportEnd::OutOfMemory => Err(Ending::silent(Status::OutOfMemory)),
    }
}

// The line of an import that did this.
fn imported(done: Imported) -> Text
    ensures { result.items ≡ imported_line done }
{
    let mut text = Text::new();
    push_bytes(&mut text, b"imported ");
    push_bytes(&mut text, Buffer::new().format(done.added).as_bytes());
    push_bytes(&mut text, b" passed ");
    push_bytes(&mut text, Buffer::new().format(done.passed).as_bytes());
    push_bytes(&mut text, b" rows ");
    push_bytes(&mut text, Buffer::new().format(done.rows).as_bytes());
    push_bytes(&mut text, b"\n");
    text
}

ghost use Rattle.std.specs.Prelude.{◌≡◌, ◌<◌, ◌^◌};
ghost use Rattle.commands.specs.CopyRun.{copied_line, copies_on, copy_output, not_prefix_line};
ghost use Rattle.run_output.specs.Ended.{output_of};
ghost use Rattle.run_output.specs.Outside.{means};

use crate::recovering::{damaged, not_archive, old_version};
use archive_copy::{CopyEnd, copy};
use disk_model::Disk;
use itoa::Buffer;
use run_output::{Ending, Outside, Status, Text, attach};
use serial_link::Link;
use station_base::push_bytes;
use station_io::{Files, Sink};
use std::alloc::Global;

/// Attaches the two files, of which the first is not made where there is none, and adds to the archive of the second the
/// rows of the first that it lacks.
#[inline(never)]
pub fn copy_files<F: Files, K: Sink, L: Link, D: Disk>(
    alloc: Global,
    from: &str,
    to: &str,
    outside: &mut Outside<F, K, L, D>,
) -> Result<Text, Ending>
    requires { D.medium.moment outside.old.second < 2 ^ 63 }
    ensures { copies_on (means F.shelf K.outlet L.traffic D.medium) from.now to.now outside.old result outside.new }
{
    attach(&mut outside.disk, from, false)?;
    attach(&mut outside.second, to, true)?;
    let end = copy(alloc, &mut outside.disk, &mut outside.second);
    copy_text(end)
}

// What is given of a copy that ended so.
fn copy_text(end: CopyEnd) -> Result<Text, Ending>
    ensures { output_of result ≡ copy_output end }
{
    match end {
        CopyEnd::Done(rows) => Ok(copied(rows)),
        CopyEnd::FromNotArchive(bytes) => Err(not_archive(&bytes)),
        CopyEnd::ToNotArchive(bytes) => Err(not_archive(&bytes)),
        CopyEnd::FromDamaged(place) | CopyEnd::ToDamaged(place) => Err(damaged(place)),
        CopyEnd::Full(_) => Err(Ending::with_line(b"archive full\n", Status::ArchiveFull)),
        CopyEnd::ToOldVersion => Err(old_version()),
        CopyEnd::NotPrefix(row) => Err(not_prefix(row)),
        CopyEnd::FromFault | CopyEnd::ToFault => {
            Err(Ending::with_line(b"disk fault\n", Status::DiskFault))
        }
        CopyEnd::OutOfMemory => Err(Ending::silent(Status::OutOfMemory)),
    }
}

// The line of a copy after which both archives have so many rows.
fn copied(rows: u64) -> Text
    ensures { result.items ≡ copied_line rows }
{
    let mut text = Text::new();
    push_bytes(&mut text, b"copied ");
    push_bytes(&mut text, Buffer::new().format(rows).as_bytes());
    push_bytes(&mut text, b"\n");
    text
}

// How an archive to copy to ends the command, of which this row is the first that the other one lacks.
fn not_prefix(row: u64) -> Ending
    ensures { result ≡ record { text = not_prefix_line row; status = Status.NotPrefix } }
{
    let mut text = Text::new();
    push_bytes(&mut text, b"not a prefix at row ");
    push_bytes(&mut text, Buffer::new().format(row).as_bytes());
    push_bytes(&mut text, b"\n");
    Ending::new(text, Status::NotPrefix)
}

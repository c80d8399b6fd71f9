ghost use Rattle.std.specs.Prelude.{◌≡◌, ◌≤◌};
ghost use Rattle.commands.specs.Recovery.{bad_archive, damaged_line, not_archive_line, old_archive};
ghost use Rattle.commands.specs.Recovery.{reads_archive, recovers};
ghost use Rattle.disk_model.specs.Disk.{MayBegin};
ghost use Rattle.gated_log.specs.Start.{OnWrite};
ghost use Rattle.run_output.specs.Outside.{means};
ghost use Rattle.station_base.specs.Limits.{most_rows};

use disk_model::Disk;
use itoa::Buffer;
use run_output::{Ending, Outside, Status, Text, attach, push_memory};
use serial_link::Link;
use station_base::{MOST_ROWS, push_bytes};
use station_io::{Files, Sink};
use std::alloc::Global;
use weather_book::{Book, BookStart, Purpose};

/// Attaches the file of this name, which is not made where there is none, and recovers its archive to be read.
pub fn read_archive<F: Files, K: Sink, L: Link, D: Disk>(
    alloc: Global,
    archive: &str,
    outside: &mut Outside<F, K, L, D>,
) -> Result<Book, Ending>
    ensures { reads_archive (means F.shelf K.outlet L.traffic D.medium) archive.now outside.old result outside.new }
{
    attach(&mut outside.disk, archive, false)?;
    recover(alloc, &mut outside.disk, MOST_ROWS, Purpose::Read)
}

/// Recovers the archive of the file that is attached.
pub fn recover<D: Disk>(
    alloc: Global,
    disk: &mut D,
    most: u32,
    purpose: Purpose,
) -> Result<Book, Ending>
    requires most { most ≤ most_rows }
    requires room { OnWrite purpose (MayBegin D.medium 3 disk.old) }
    ensures { recovers D.medium most purpose disk.old result disk.new }
{
    match Book::recover(alloc, disk, most, purpose) {
        BookStart::Book(book) => Ok(book),
        BookStart::NotArchive(bytes) => Err(not_archive(&bytes)),
        BookStart::OldVersion => Err(old_version()),
        BookStart::Damaged(place) => Err(damaged(place)),
        BookStart::DiskFault => Err(Ending::with_line(b"disk fault\n", Status::DiskFault)),
        BookStart::OutOfMemory => Err(Ending::silent(Status::OutOfMemory)),
    }
}

/// How a file that begins with these bytes, and is no archive, ends a command.
pub fn not_archive(bytes: &[u8; 8]) -> Ending
    ensures { result ≡ bad_archive (not_archive_line bytes.now) }
{
    let mut text = Text::new();
    push_bytes(&mut text, b"not an archive ");
    push_memory(&mut text, bytes);
    Ending::new(text, Status::BadArchive)
}

/// How an archive that is damaged at this place ends a command.
pub fn damaged(place: u64) -> Ending
    ensures { result ≡ bad_archive (damaged_line place) }
{
    let mut text = Text::new();
    push_bytes(&mut text, b"damaged at ");
    push_bytes(&mut text, Buffer::new().format(place).as_bytes());
    push_bytes(&mut text, b"\n");
    Ending::new(text, Status::BadArchive)
}

/// How an archive of the first version that is to be written ends a command.
pub fn old_version() -> Ending
    ensures { result ≡ old_archive }
{
    Ending::with_line(b"old archive\n", Status::OldArchive)
}

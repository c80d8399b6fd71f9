ghost use Rattle.std.specs.Prelude.{◌≡◌};
ghost use Rattle.commands.specs.AnswerRun.{requests_answered, answers_over, queries_line};
ghost use Rattle.run_output.specs.Outside.{means};

use crate::recovering::read_archive;
use disk_model::Disk;
use itoa::Buffer;
use query_service::{Queries, QueryEnd, answer_queries};
use run_output::{Ending, Outside, Status, Text, connect};
use serial_link::{Link, Side};
use station_base::push_bytes;
use station_io::{Files, Sink};
use std::alloc::Global;
use weather_book::Book;

/// Attaches the file of this name, which is not made where there is none, waits for a call at the address, and answers
/// requests for the rows of the archive for so many turns.
#[inline(never)]
pub fn answer_requests<F: Files, K: Sink, L: Link, D: Disk>(
    alloc: Global,
    archive: &str,
    address: &str,
    turns: u32,
    outside: &mut Outside<F, K, L, D>,
) -> Result<Text, Ending>
    ensures { answers_over
        (means F.shelf K.outlet L.traffic D.medium) archive.now address.now turns outside.old result outside.new }
{
    let book = read_archive(alloc, archive, outside)?;
    connect(&mut outside.link, Side::Serve, address)?;
    answer_all(&book, turns, &mut outside.disk, &mut outside.link)
}

// Answers requests over the link that is there.
fn answer_all<L: Link, D: Disk>(
    book: &Book,
    turns: u32,
    disk: &mut D,
    link: &mut L,
) -> Result<Text, Ending>
    ensures { requests_answered L.traffic D.medium book.now turns link.old disk.old result link.new disk.new }
{
    let mut count = Queries { lines: 0 };
    match answer_queries(book, disk, link, turns, &mut count) {
        QueryEnd::Done => Ok(line_of(&count)),
        QueryEnd::LinkFault => Err(Ending::with_line(b"link fault\n", Status::LinkFault)),
        QueryEnd::DiskFault => Err(Ending::with_line(b"disk fault\n", Status::DiskFault)),
        QueryEnd::OutOfMemory => Err(Ending::silent(Status::OutOfMemory)),
    }
}

// `queries Q`.
fn line_of(count: &Queries) -> Text
    ensures { result.items ≡ queries_line count.now.lines }
{
    let mut line = Text::new();
    push_bytes(&mut line, b"queries ");
    push_bytes(&mut line, Buffer::new().format(count.lines).as_bytes());
    push_bytes(&mut line, b"\n");
    line
}

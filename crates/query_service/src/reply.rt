ghost use Rattle.std.specs.Prelude.{◌<◌, length};
ghost use Rattle.weather_book.specs.Book.{len_of};
ghost use Rattle.query_service.specs.Answers.{answer_to, count_text, day_answer, last_row_line, rows_answer};
ghost use Rattle.query_service.specs.Said.{BookReplies, QuerySays};

use crate::request::Request;
use arrayvec::ArrayVec;
use disk_model::Disk;
use itoa::Buffer;
use station_base::{DayNumber, push_bytes};
use station_io::{Put, Sink};
use weather_book::Book;
use weather_reports::{ReportEnd, day_table, listing, rows_from};

// Room for `count ` and a number.
const COUNT_ROOM: usize = 32;

// Writes the answer to a request.
pub fn reply<D: Disk, K: Sink>(
    book: &Book,
    disk: &mut D,
    out: &mut K,
    request: Request,
) -> ReportEnd
    ensures { BookReplies K.outlet D.medium book.now
        (λ rows. answer_to rows request) result disk.old disk.new out.old out.new }
{
    match request {
        Request::Count => say_count(book, out),
        Request::Last => say_last(book, disk, out),
        Request::Rows(first, last) => say_rows(book, disk, out, first, last),
        Request::Day(day) => say_day(book, disk, out, day),
        Request::Unknown => say(b"error\n", out),
    }
}

// Writes how many rows there are.
fn say_count<K: Sink>(book: &Book, out: &mut K) -> ReportEnd
    ensures { QuerySays K.outlet (count_text (len_of book.now)) result out.old out.new }
{
    let mut text: ArrayVec<u8, COUNT_ROOM> = ArrayVec::new();
    let mut digits = Buffer::new();
    push_bytes(&mut text, b"count ");
    push_bytes(&mut text, digits.format(book.len()).as_bytes());
    push_bytes(&mut text, b"\n");
    say(&text, out)
}

// Writes the last row.
fn say_last<D: Disk, K: Sink>(book: &Book, disk: &mut D, out: &mut K) -> ReportEnd
    ensures { BookReplies K.outlet D.medium book.now last_row_line result disk.old disk.new out.old out.new }
{
    let count = book.len();
    if count == 0 {
        return say(b"none\n", out);
    }
    rows_from(book, disk, out, count - 1)
}

// Writes the rows of these days.
fn say_rows<D: Disk, K: Sink>(
    book: &Book,
    disk: &mut D,
    out: &mut K,
    first: DayNumber,
    last: DayNumber,
) -> ReportEnd
    ensures { BookReplies K.outlet D.medium book.now (rows_answer first last) result disk.old disk.new out.old out.new }
{
    match listing(book, disk, out, first, last) {
        ReportEnd::Done => say(b"end\n", out),
        ReportEnd::DiskFault => ReportEnd::DiskFault,
        ReportEnd::WriteFault => ReportEnd::WriteFault,
    }
}

// Writes what the rows of a day come to.
fn say_day<D: Disk, K: Sink>(book: &Book, disk: &mut D, out: &mut K, day: DayNumber) -> ReportEnd
    ensures { BookReplies K.outlet D.medium book.now (day_answer day) result disk.old disk.new out.old out.new }
{
    match day_table(book, disk, out, day, day) {
        ReportEnd::Done => say(b"end\n", out),
        ReportEnd::DiskFault => ReportEnd::DiskFault,
        ReportEnd::WriteFault => ReportEnd::WriteFault,
    }
}

// Writes these bytes.
fn say<K: Sink>(bytes: &[u8], out: &mut K) -> ReportEnd
    requires { 0 < length bytes.now }
    ensures { QuerySays K.outlet bytes.now result out.old out.new }
{
    match out.put(bytes) {
        Put::Done => ReportEnd::Done,
        Put::Failed => ReportEnd::WriteFault,
    }
}

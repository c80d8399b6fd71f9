ghost use Rattle.std.specs.Prelude.{ℕ, ⊤, ◌≡◌, ◌<◌, ◌≤◌, ◌+◌, ◌*◌, ◌^◌, ◌++◌, ◌∷◌, [], List, length, take};
ghost use Rattle.disk_model.specs.Disk.{Faults, Stays};
ghost use Rattle.serial_link.specs.Link.{AreStill, Talks};
ghost use Rattle.station_base.specs.declared.row.Row.{Row};
ghost use Rattle.weather_book.specs.Book.{BookStandsFor};
ghost use Rattle.query_service.specs.Service.{IsDoneWithoutFault, ReadsFor, ServesQueries};
ghost use Rattle.query_service.specs.Turns.{AnswersBytes, AnswersTurns, TakesTurns};

use crate::answer::answer;
use crate::request::LONGEST;
use arrayvec::ArrayVec;
use disk_model::Disk;
use serial_link::{Link, Recv};
use weather_book::Book;

// How many bytes are heard at once.
const ROOM: usize = 256;

// So many bytes of a longer line are held, one more than a request has.
const HELD: usize = LONGEST + 1;

// What ends a line.
const LINE_FEED: u8 = b'\n';

// The line that has begun.
type Line = ArrayVec<u8, HELD>;

/// How much was answered.
#[derive(Clone, Copy, Debug, PartialEq, Eq)]
pub struct Queries {
    /// How many lines had all of their answer said.
    pub lines: u64,
}

/// How the service ended.
#[derive(Clone, Copy, Debug, PartialEq, Eq)]
pub enum QueryEnd {
    /// All turns were taken.
    Done,
    /// The link failed.
    LinkFault,
    /// A call of the disk failed.
    DiskFault,
    /// The link found no memory.
    OutOfMemory,
}

/// Answers requests over a link for so many turns, in each of which up to 256 bytes are received. A quiet wait is a turn
/// and does nothing.
///
/// A request is a line that ends with a line feed, which alone ends it. Each line is answered as it ends, by the rows of
/// the book; of a longer line only 65 bytes are held. No memory is taken here. (This project's own.)
pub fn answer_queries<L: Link, D: Disk>(
    book: &Book,
    disk: &mut D,
    link: &mut L,
    turns: u32,
    count: &mut Queries,
) -> QueryEnd
    requires lines { count.old.lines ≡ 0 }
    ensures talk { Talks L.traffic link.old (AnswersTurns D.medium book.now disk.old result turns count.new.lines)
        (result ≡ QueryEnd.LinkFault) (result ≡ QueryEnd.OutOfMemory) link.new }
    ensures still { AreStill L.traffic link.old (result ≡ QueryEnd.LinkFault) ⊤ (result
        ≡ QueryEnd.OutOfMemory) link.new }
    ensures stays { Stays D.medium disk.old disk.new }
    ensures went { (rows : List Row) → BookStandsFor book.now rows → ReadsFor D.medium rows result disk.old disk.new }
    ensures disk_fault { Faults D.medium disk.old disk.new (result ≡ QueryEnd.DiskFault) }
    ensures complete { IsDoneWithoutFault L.traffic D.medium result link.old link.new disk.old disk.new }
{
    let mut line = Line::new();
    take_turns(book, disk, link, &mut line, turns, count)
}

// Takes so many turns.
fn take_turns<L: Link, D: Disk>(
    book: &Book,
    disk: &mut D,
    link: &mut L,
    line: &mut Line,
    turns: u32,
    count: &mut Queries,
) -> QueryEnd
    requires lines { count.old.lines ≡ 0 }
    ensures { ServesQueries L.traffic D.medium book.now result
        (TakesTurns D.medium book.now disk.old result turns line.old.items line.new.items count.old.lines
        count.new.lines)
        link.old link.new disk.old disk.new }
{
    for _ in 0..turns {
        match take_turn(book, disk, link, line, count) {
            QueryEnd::Done => {}
            QueryEnd::LinkFault => return QueryEnd::LinkFault,
            QueryEnd::DiskFault => return QueryEnd::DiskFault,
            QueryEnd::OutOfMemory => return QueryEnd::OutOfMemory,
        }
    }
    QueryEnd::Done
}

// One turn: the lines that end in what comes of one receive are answered.
fn take_turn<L: Link, D: Disk>(
    book: &Book,
    disk: &mut D,
    link: &mut L,
    line: &mut Line,
    count: &mut Queries,
) -> QueryEnd
    requires few { count.old.lines + 256 < 2 ^ 64 }
    ensures serves { ServesQueries L.traffic D.medium book.now result
        (TakesTurns D.medium book.now disk.old result 1 line.old.items line.new.items count.old.lines count.new.lines)
        link.old link.new disk.old disk.new }
    ensures few { count.new.lines ≤ count.old.lines + 256 }
{
    let mut heard = [0; ROOM];
    match link.recv(&mut heard) {
        Recv::Got(size) => answer_bytes(book, disk, link, line, &heard[..size], count),
        Recv::Quiet => QueryEnd::Done,
        Recv::Failed => QueryEnd::LinkFault,
        Recv::OutOfMemory => QueryEnd::OutOfMemory,
    }
}

// Takes bytes one by one, and answers each line that ends in them.
fn answer_bytes<L: Link, D: Disk>(
    book: &Book,
    disk: &mut D,
    link: &mut L,
    line: &mut Line,
    bytes: &[u8],
    count: &mut Queries,
) -> QueryEnd
    requires few { count.old.lines + length bytes.now < 2 ^ 64 }
    ensures serves { ServesQueries L.traffic D.medium book.now result
        (AnswersBytes D.medium book.now disk.old result bytes.now line.old.items line.new.items count.old.lines
        count.new.lines)
        link.old link.new disk.old disk.new }
    ensures few { count.new.lines ≤ count.old.lines + length bytes.now }
{
    for byte in bytes {
        match answer_byte(book, disk, link, line, *byte, count) {
            QueryEnd::Done => {}
            QueryEnd::LinkFault => return QueryEnd::LinkFault,
            QueryEnd::DiskFault => return QueryEnd::DiskFault,
            QueryEnd::OutOfMemory => return QueryEnd::OutOfMemory,
        }
    }
    QueryEnd::Done
}

// Takes one byte, and answers the line if it ends with that.
fn answer_byte<L: Link, D: Disk>(
    book: &Book,
    disk: &mut D,
    link: &mut L,
    line: &mut Line,
    byte: u8,
    count: &mut Queries,
) -> QueryEnd
    requires few { count.old.lines + 1 < 2 ^ 64 }
    ensures serves { ServesQueries L.traffic D.medium book.now result
        (AnswersBytes D.medium book.now disk.old result
        (byte ∷ []) line.old.items line.new.items count.old.lines count.new.lines)
        link.old link.new disk.old disk.new }
    ensures few { count.new.lines ≤ count.old.lines + 1 }
{
    if byte != LINE_FEED {
        hold(line, byte);
        return QueryEnd::Done;
    }
    let end = answer(book, disk, link, line);
    if let QueryEnd::Done = end {
        line.clear();
        count.lines += 1;
    }
    end
}

// Holds one more byte of a line, of which no more than the first 65 are held.
fn hold(line: &mut Line, byte: u8)
    ensures { (begun : List ℕ) → line.old.items ≡ take HELD begun → line.new.items ≡ take HELD (begun ++ byte ∷ []) }
{
    if line.len() < HELD {
        line.push(byte);
    }
}

ghost use Rattle.std.specs.Prelude.{◌≡◌, ⊤};
ghost use Rattle.query_service.specs.Ends.{query_end};
ghost use Rattle.query_service.specs.Service.{ServesQueries};
ghost use Rattle.query_service.specs.Turns.{AnswersLine};

use crate::link_sink::{LinkSink, Refusal};
use crate::reply::reply;
use crate::request::request_of;
use crate::service::QueryEnd;
use disk_model::Disk;
use serial_link::Link;
use weather_book::Book;
use weather_reports::ReportEnd;

// Answers one line over the link. Done if all of the answer was said.
pub fn answer<L: Link, D: Disk>(book: &Book, disk: &mut D, link: &mut L, line: &[u8]) -> QueryEnd
    ensures { ServesQueries L.traffic D.medium book.now result
        (AnswersLine D.medium book.now disk.old result line.now) link.old link.new disk.old disk.new }
{
    let mut out = LinkSink {
        link,
        refusal: None,
    };
    let end = reply(book, disk, &mut out, request_of(line));
    end_of(end, out.refusal)
}

// How the service ends, by the end of an answer and by why a piece of it was refused.
fn end_of(end: ReportEnd, refusal: Option<Refusal>) -> QueryEnd
    ensures { result ≡ query_end end refusal }
{
    match end {
        ReportEnd::Done => QueryEnd::Done,
        ReportEnd::DiskFault => QueryEnd::DiskFault,
        ReportEnd::WriteFault => match refusal {
            Some(Refusal::OutOfMemory) => QueryEnd::OutOfMemory,
            Some(Refusal::LinkFault) | None => QueryEnd::LinkFault,
        },
    }
}

ghost use Rattle.std.specs.Prelude.{◌≡◌, ◌<◌, IfSome, Some, length};
ghost use Rattle.query_service.specs.Asked.{AreDays, LineAsks};
ghost use Rattle.station_base.specs.declared.day.DayNumber.{DayNumber};

use station_base::DayNumber;

/// The most bytes that the line of a request has, without its line feed.
pub const LONGEST: usize = 64;

/// What a line asks for.
#[derive(Clone, Copy, Debug, PartialEq, Eq)]
pub enum Request {
    /// How many rows there are.
    Count,
    /// The last row.
    Last,
    /// The rows of the days from a first to a last.
    Rows(DayNumber, DayNumber),
    /// What the rows of a day come to.
    Day(DayNumber),
    /// The line is no request.
    Unknown,
}

/// What this line asks for, which is given without its line feed.
pub fn request_of(line: &[u8]) -> Request
    ensures { LineAsks line.now result }
{
    if line.len() > LONGEST {
        return Request::Unknown;
    }
    if line == b"count".as_slice() {
        return Request::Count;
    }
    if line == b"last".as_slice() {
        return Request::Last;
    }
    if let Some(days) = line.strip_prefix(b"rows ".as_slice()) {
        return match days_of(days) {
            Some((first, last)) => Request::Rows(first, last),
            None => Request::Unknown,
        };
    }
    if let Some(day) = line.strip_prefix(b"day ".as_slice()) {
        return match DayNumber::from_text(day) {
            Some(day) => Request::Day(day),
            None => Request::Unknown,
        };
    }
    Request::Unknown
}

// The bytes of a day's text.
const DAY: usize = 10;

// The days that are written as `FIRST LAST`, of which the first is no later.
fn days_of(text: &[u8]) -> Option<(DayNumber, DayNumber)>
    ensures found { IfSome result (λ days. AreDays text.now days.0 days.1) }
    ensures only { (first last : DayNumber) → AreDays text.now first last → result ≡ Some (first, last) }
{
    if text.len() < DAY {
        return None;
    }
    let (first, rest) = text.split_at(DAY);
    let last = rest.strip_prefix(b" ".as_slice())?;
    let (first, last) = (DayNumber::from_text(first)?, DayNumber::from_text(last)?);
    if first > last {
        return None;
    }
    Some((first, last))
}

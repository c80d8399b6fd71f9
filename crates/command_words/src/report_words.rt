ghost use Rattle.std.specs.Prelude.{◌≡◌};
ghost use Rattle.command_words.specs.ReportWords.{day_in, report_kind_in, wanted_in};

use crate::wanted::{ReportKind, Wanted};
use station_base::DayNumber;

/// The report that the words behind `report ARCHIVE` ask for: a kind, and two days `YYYY-MM-DD` of which the second is
/// not before the first. None where they are outside the table.
#[tactic(auto, unfolding(crate::specs::ReportWords::wanted_in))]
pub fn read_wanted(kind: &str, first: &str, last: &str) -> Option<Wanted>
    ensures { result ≡ wanted_in kind.now first.now last.now }
{
    let kind = read_kind(kind)?;
    let first = read_day(first)?;
    let last = read_day(last)?;
    if last < first {
        return None;
    }
    Some(Wanted { kind, first, last })
}

// `rows`, `days` or `months`.
fn read_kind(word: &str) -> Option<ReportKind>
    ensures { result ≡ report_kind_in word.now }
{
    match word {
        "rows" => Some(ReportKind::Rows),
        "days" => Some(ReportKind::Days),
        "months" => Some(ReportKind::Months),
        _ => None,
    }
}

// A day that a stamp can have.
fn read_day(word: &str) -> Option<DayNumber>
    ensures { result ≡ day_in word.now }
{
    DayNumber::from_text(word.as_bytes())
}

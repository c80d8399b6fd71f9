ghost use Rattle.std.specs.Prelude.{◌≡◌, ◌+◌, ◌≤◌, ◌<◌, ◌++◌, [], ◌∷◌, All, List, None, IfSome, option_map, slice_index_or};
ghost use Rattle.station_base.specs.RowLine.{IsPrintable};
ghost use Rattle.station_base.specs.declared.row.Row.{Row};
ghost use Rattle.daily_summary.specs.Bounds.{IsInBounds, IsSum};
ghost use Rattle.daily_summary.specs.Summary.{summary_of, tenths};
ghost use Rattle.station_base.specs.Limits.{most_rows};

use crate::field_sum::{FieldSum, merge};
use station_base::{FIELD_COUNT, FieldId};

/// What rows come to in each field: those of a day, or of the days of a month (after the daily summaries of WeeWX).
#[derive(Clone, Copy, Debug, PartialEq, Eq)]
pub struct DaySummary {
    /// Each field by its number, and none where no row has a value of it.
    pub fields: [Option<FieldSum>; FIELD_COUNT],
    /// How many rows there are.
    pub rows: u32,
}

impl DaySummary {
    /// The summary of no rows.
    #[tactic(auto, unfolding(crate::specs::Summary::summary_of))]
    pub fn new() -> DaySummary
        ensures summary { result ≡ summary_of [] }
        ensures bounds { IsInBounds result }
    {
        DaySummary {
            fields: [None; FIELD_COUNT],
            rows: 0,
        }
    }

    /// Adds the rows of another summary behind those that were added, as those of a day to the earlier days of its month.
    pub fn merge(&mut self, later: &DaySummary)
        requires bounds { IsInBounds self.old }
        requires later { IsInBounds later.now }
        requires few { self.old.rows + later.now.rows ≤ most_rows }
        ensures summary { (rows more : List Row) → self.old ≡ summary_of rows → later.now ≡ summary_of more
            → self.new ≡ summary_of (rows ++ more) }
        ensures bounds { IsInBounds self.new }
        ensures rows { self.new.rows ≡ self.old.rows + later.now.rows }
    {
        for field in 0..FIELD_COUNT {
            merge(&mut self.fields[field], &later.fields[field]);
        }
        self.rows += later.rows;
    }

    /// The mean of a field's values, each weighted by its seconds, in tenths of the field's unit and rounded towards
    /// the lesser number. None exactly where no row has a value of it.
    pub fn average_tenths(&self, field: FieldId) -> Option<i64>
        requires { IsInBounds self.now }
        ensures { result ≡ option_map tenths (slice_index_or self.now.fields field None) }
    {
        let sum = self.fields[field.index()].as_ref()?;
        Some(tenths(sum))
    }
}

// Ten times the weighted sum, divided by the time.
fn tenths(sum: &FieldSum) -> i64
    requires sum { IsSum sum.now }
    requires few { sum.now.count ≤ most_rows }
    ensures { result ≡ tenths sum.now }
{
    (10 * sum.wsum).div_euclid(sum.sumtime as i64)
}

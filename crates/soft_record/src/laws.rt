ghost use Rattle.std.specs.Prelude.{◌≢◌, ◌<◌, ◌++◌, [], ◌∷◌, ℕ, List};
ghost use Rattle.station_base.specs.Period.{IsPeriod};
ghost use Rattle.station_base.specs.declared.row.Row.{Row};
ghost use Rattle.soft_record.specs.Entry.{interval_end};
ghost use Rattle.soft_record.specs.Given.{IsRowOf};
ghost use Rattle.soft_record.specs.IntervalEnd.{IsEarliest};
ghost use Rattle.soft_record.specs.declared.entry.Entry.{Entry};

/// An entry's interval ends at the earliest full minute, not before the entry, whose number in its day is a multiple of the
/// period.
#[tactic(auto, using(crate::proofs::Ends::end_is_earliest))]
pub fn intervals_end_at_the_earliest_multiple()
    ensures { (period : ℕ) (e : Entry) → IsPeriod period → e.second < 60 → IsEarliest period e (interval_end period e) }
{}

/// The row of an interval stays its row as an entry of another interval comes.
#[tactic(auto, using(crate::proofs::Intervals::row_stays))]
pub fn given_rows_stay()
    ensures { (period end : ℕ) (entries : List Entry) (e : Entry) (row : Row) → interval_end period e ≢ end
        → IsRowOf period entries end row → IsRowOf period (entries ++ e ∷ []) end row }
{}

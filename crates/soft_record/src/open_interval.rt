ghost use Rattle.std.specs.Prelude.{◌≡◌, ◌≢◌, ◌+◌, ◌*◌, ◌<◌, ◌≤◌, ◌++◌, [], ◌∷◌, ℕ, List, Some, None};
ghost use Rattle.std.proofs.Props.{props};
ghost use Rattle.station_base.specs.CivilMinute.{IsCivilMinute, minute_of};
ghost use Rattle.station_base.specs.Period.{IsPeriod};
ghost use Rattle.soft_record.specs.Entry.{interval_end, moment};
ghost use Rattle.soft_record.specs.Given.{AreGood, EntryCanFollow};
ghost use Rattle.soft_record.specs.IntervalEnd.{IntervalEndIsNear, longest};
ghost use Rattle.soft_record.specs.Sums.{AreSmall, entries_in};
ghost use Rattle.soft_record.specs.declared.entry.Entry as heard;

use crate::entry::Entry;
use crate::sums::Sums;
use station_base::Stamp;

/// The interval of the last entry: its end, that entry, and what its entries come to. Moments rise, so it has no more entries
/// than seconds.
#[derive(Clone, Copy, Debug)]
pub struct OpenInterval {
    pub end: Stamp,
    pub last: Entry,
    pub sums: Sums,
    ghost small: { AreSmall sums } by { Prim.hlevel props },
    ghost few: { entries_in sums + 60 * minute_of end ≤ moment last + longest },
}

impl OpenInterval {
    ghost use Rattle.soft_record.specs.OpenInterval.{IntervalIsOpen};

    /// That of the first entry of all.
    pub fn first(end: Stamp, entry: &Entry) -> OpenInterval
        requires civil { IsCivilMinute end }
        requires near { IntervalEndIsNear entry.now end }
        ensures { (period : ℕ) → minute_of end ≡ interval_end period entry.now
            → IntervalIsOpen period (entry.now ∷ []) result }
    {
        OpenInterval {
            end,
            last: *entry,
            sums: Sums::first(entry),
        }
    }

    /// With one entry more.
    pub fn with(&self, entry: &Entry) -> OpenInterval
        requires later { moment self.now.last < moment entry.now }
        requires reached { moment entry.now ≤ 60 * minute_of self.now.end }
        ensures { (period : ℕ) (entries : List heard.Entry) → IntervalIsOpen period entries self.now
            → minute_of self.now.end ≡ interval_end period entry.now
            → IntervalIsOpen period (entries ++ entry.now ∷ []) result }
    {
        OpenInterval {
            end: self.end,
            last: *entry,
            sums: self.sums.with(&self.last, entry),
        }
    }

    /// The interval that an entry begins behind this one.
    pub fn next(&self, end: Stamp, entry: &Entry) -> OpenInterval
        requires civil { IsCivilMinute end }
        requires near { IntervalEndIsNear entry.now end }
        ensures { (period : ℕ) (entries : List heard.Entry) → IsPeriod period → AreGood period None entries
            → IntervalIsOpen period entries self.now
            → EntryCanFollow period (Some self.now.last) entry.now → minute_of end ≡ interval_end period entry.now
            → minute_of self.now.end ≢ minute_of end → IntervalIsOpen period (entries ++ entry.now ∷ []) result }
    {
        OpenInterval {
            end,
            last: *entry,
            sums: Sums::new().with(&self.last, entry),
        }
    }
}

ghost use Rattle.std.specs.Prelude.{◌≡◌, ◌≤◌, ◌<◌, ◌↔◌, IsSome, IfSome};
ghost use Rattle.station_base.specs.CivilMinute.{IsCivilMinute, last_minute, minute_of};
ghost use Rattle.station_base.specs.Period.{IsPeriod};
ghost use Rattle.soft_record.specs.Entry.{interval_end};
ghost use Rattle.soft_record.specs.IntervalEnd.{IntervalEndIsNear};

use crate::entry::Entry;
use station_base::{Period, Stamp};

/// The end of the entry's interval: the earliest full minute, not before the entry, whose number in its day is a multiple of
/// the period. None if that is no stamp.
pub fn interval_end(period: Period, entry: &Entry) -> Option<Stamp>
    requires civil { entry.now.second < 60 }
    ensures found { IsSome result ↔ (interval_end period entry.now ≤ minute_of last_minute) }
    ensures end { IfSome result (λ end. minute_of end ≡ interval_end period entry.now) }
    ensures civil { IfSome result IsCivilMinute }
    ensures near { IfSome result (IntervalEndIsNear entry.now) }
    ensures period { IsPeriod period }
{
    let minutes = u32::from(period.minutes());
    Stamp::from_minute(entry.full_minute().next_multiple_of(minutes))
}

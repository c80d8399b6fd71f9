ghost use Rattle.std.specs.Prelude.{◌≡◌, List};
ghost use Rattle.station_base.specs.CivilMinute.{IsCivilMinute, minute_of};
ghost use Rattle.soft_record.specs.Interval.{Rising};
ghost use Rattle.soft_record.specs.Readings.{HasReadings, IsPacketReading};
ghost use Rattle.soft_record.specs.SoftRow.{IsSoftRow, at_most};
ghost use Rattle.soft_record.specs.Sums.{AreSmall, AreSumsOf};

use crate::sums::Sums;
use station_base::{Period, Row, Stamp};

// The most that two bytes hold.
const MOST: u32 = 65_535;

/// The row of an interval, of what its entries come to.
pub fn row_of(end: Stamp, period: Period, sums: &Sums) -> Row
    requires { AreSmall sums.now }
    ensures row { (rs : List Rising) → IsCivilMinute end → AreSumsOf rs sums.now
        → IsSoftRow period (minute_of end) rs result }
    ensures readings { HasReadings result }
{
    let values = [
        sums.out_temp.mean(),
        sums.out_temp.greatest(),
        sums.out_temp.least(),
        at_most(sums.rain),
        sums.rain_rate.greatest(),
        sums.barometer.mean(),
        sums.radiation.mean(),
        sums.wind.samples(),
        sums.in_temp.mean(),
        sums.in_humidity,
        sums.out_humidity,
        sums.wind.mean(),
        sums.wind.greatest(),
        None,
        None,
        sums.uv.mean(),
        at_most(sums.et),
        sums.radiation.greatest(),
        sums.uv.greatest(),
        None,
        None,
        None,
        None,
        None,
        None,
        None,
        None,
        None,
        None,
        None,
        None,
        None,
        None,
        None,
        None,
        None,
        None,
    ];
    Row {
        stamp: end,
        interval: period,
        values,
        limited: 0,
    }
}

// A sum, and of a greater one the most that two bytes hold.
fn at_most(sum: u32) -> Option<i32>
    ensures exact { result ≡ at_most sum }
    ensures reading { IsPacketReading result }
{
    Some(sum.min(MOST) as i32)
}

ghost use Rattle.std.specs.Prelude.{◌≡◌, ◌≤◌, IfSome, option_map};
ghost use Rattle.daily_summary.specs.Bounds.{IsSum};
ghost use Rattle.weather_book.specs.Start.{IsOfADay};
ghost use Rattle.climate_table.specs.DegreeDays.{degrees_of};
ghost use Rattle.climate_table.specs.Degrees.{outside};
ghost use Rattle.climate_table.specs.Total.{IsFraction};

use crate::totals::Fraction;
use daily_summary::{DaySummary, FieldSum};

// Heating and cooling are reckoned from 65 F, in tenths.
const BASE: i64 = 650;

// The field of outside temperature, by its number.
pub const OUTSIDE: usize = 0;

// How far the outside temperatures of a day lie below 65 F and above it.
#[derive(Clone, Copy)]
pub struct DegreeDays {
    // Tenths of a degree below the base, each times the seconds over which it lasted, over the seconds of all.
    pub heating: Fraction,
    // The same above the base.
    pub cooling: Fraction,
}

// The degree days of a day, if its rows have an outside temperature. Since a day has at most 1,441 rows, both numerators are
// below 2^48.
pub fn degrees_in(day: &DaySummary) -> Option<DegreeDays>
    requires { IsOfADay day.now }
    ensures exact { result ≡ option_map degrees_of (outside day.now) }
    ensures heating { IfSome result (λ degrees. IsFraction degrees.heating) }
    ensures cooling { IfSome result (λ degrees. IsFraction degrees.cooling) }
{
    let sum = day.fields[OUTSIDE].as_ref()?;
    Some(degrees_of(sum))
}

// The degree days of a sum of outside temperatures.
fn degrees_of(sum: &FieldSum) -> DegreeDays
    requires sum { IsSum sum.now }
    requires few { sum.now.count ≤ 1441 }
    ensures exact { result ≡ degrees_of sum.now }
    ensures heating { IsFraction result.heating }
    ensures cooling { IsFraction result.cooling }
{
    let base = BASE * sum.sumtime as i64;
    DegreeDays {
        heating: Fraction {
            numerator: (base - sum.wsum).max(0) as u64,
            denominator: sum.sumtime,
        },
        cooling: Fraction {
            numerator: (sum.wsum - base).max(0) as u64,
            denominator: sum.sumtime,
        },
    }
}

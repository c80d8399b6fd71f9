ghost use Rattle.std.specs.Prelude.{◌≡◌, ◌+◌, ◌++◌, ◌∷◌, [], ℕ, ℤ, List};
ghost use Rattle.station_base.specs.declared.row.Row.{Row};
ghost use Rattle.daily_summary.specs.Bounds.{IsInBounds};
ghost use Rattle.weather_book.specs.Start.{IsOfADay};
ghost use Rattle.climate_table.specs.Climate.{IsOfDays, climate_of};
ghost use Rattle.climate_table.specs.Degrees.{day_summary, is_wet, rain};

use crate::degree_days::degrees_in;
use daily_summary::DaySummary;

// The field of rain, by its number.
pub const RAIN: usize = 3;

// The totals of a month or of a year.
#[derive(Clone, Copy)]
pub struct ClimateSummary {
    // The summary of their rows in each field.
    pub sums: DaySummary,
    // How many days have an outside temperature.
    pub days: u32,
    // How many days have a click of rain.
    pub wet: u32,
    // The totals of heating and of cooling degree days, in thousandths of a degree F.
    pub heating: u64,
    pub cooling: u64,
}

impl ClimateSummary {
    // The totals of no days.
    pub fn new() -> ClimateSummary
        ensures climate { (rows : List Row) → result ≡ climate_of rows [] }
        ensures sums { IsInBounds result.sums }
        ensures few { IsOfDays 0 result }
    {
        ClimateSummary {
            sums: DaySummary::new(),
            days: 0,
            wet: 0,
            heating: 0,
            cooling: 0,
        }
    }

    // Adds a day behind those that were added, by the summary of its rows.
    pub fn add(&mut self, day: &DaySummary)
        requires sums { IsInBounds self.old.sums }
        requires few { IsOfDays 365 self.old }
        requires day { IsOfADay day.now }
        ensures climate { (rows : List Row) (days : List ℤ) (next : ℤ) → self.old ≡ climate_of rows days
            → day.now ≡ day_summary rows next → self.new ≡ climate_of rows (days ++ next ∷ []) }
        ensures sums { IsInBounds self.new.sums }
        ensures few { (n : ℕ) → IsOfDays n self.old → IsOfDays (n + 1) self.new }
    {
        self.sums.merge(day);
        self.wet += u32::from(is_wet(day));
        let Some(degrees) = degrees_in(day) else {
            return;
        };
        self.days += 1;
        self.heating += degrees.heating.thousandths();
        self.cooling += degrees.cooling.thousandths();
    }
}

// Whether the rain of a day is a click at least.
fn is_wet(day: &DaySummary) -> bool
    ensures { result ≡ is_wet (rain day.now) }
{
    match &day.fields[RAIN] {
        Some(rain) => rain.sum >= 1,
        None => false,
    }
}

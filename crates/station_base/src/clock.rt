ghost use Rattle.std.specs.Prelude.{◌≡◌, ◌≤◌};
ghost use Rattle.station_base.specs.ClockTime.{can_be_shown, is_civil_day, is_civil_second};

use jiff::civil::Date;

// The years that one byte can tell, counted from 1900.
const FIRST_YEAR: u16 = 1900;

const LAST_YEAR: u16 = 2155;

// The hours of a day, and the minutes of an hour or the seconds of a minute.
const HOURS: u8 = 24;

const SIXTY: u8 = 60;

/// A second of a console's clock, in no time zone (Davis serial manual, "GETTIME").
#[derive(Clone, Copy, Debug, PartialEq, Eq)]
pub struct ClockTime {
    pub year: u16,
    /// From 1.
    pub month: u8,
    /// The day of the month, from 1.
    pub day: u8,
    pub hour: u8,
    pub minute: u8,
    pub second: u8,
}

impl ClockTime {
    /// Whether the calendar has this second, and a clock can show its year, which is then 1900 to 2155.
    #[tactic(auto, unfolding(crate::specs::ClockTime::is_civil_second))]
    pub fn is_civil(&self) -> bool
        ensures { result ≡ can_be_shown self.now }
    {
        FIRST_YEAR <= self.year
            && self.year <= LAST_YEAR
            && self.second < SIXTY
            && self.minute < SIXTY
            && self.hour < HOURS
            && is_civil_day(self.year, self.month, self.day)
    }
}

// Whether the calendar has this day.
fn is_civil_day(year: u16, month: u8, day: u8) -> bool
    requires { year ≤ LAST_YEAR }
    ensures { result ≡ is_civil_day year month day }
{
    let (Ok(month), Ok(day)) = (i8::try_from(month), i8::try_from(day)) else {
        return false;
    };
    Date::new(year as i16, month, day).is_ok()
}

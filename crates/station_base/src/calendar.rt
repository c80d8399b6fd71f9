ghost use Rattle.std.specs.Prelude.{◌≡◌, ◌<◌, ◌≤◌, ℤ, IfSome, pos, unsigned_abs};
ghost use Rattle.jiff_core.specs.Calendar.{days_from_civil};
ghost use Rattle.station_base.specs.DayText.{IsDayNumber};
ghost use Rattle.station_base.specs.CivilDate.{IsCivilDate, date_of};

use jiff_core::civil::Date;

// The archive day of the first stamp, 1999-12-31, and the day of the last.
const FIRST_ARCHIVE_DAY: i32 = 10_956;

const LAST_ARCHIVE_DAY: i32 = LAST_DAY as i32;

/// The last day of a stamp, 2127-12-31, in days since 1970-01-01.
pub const LAST_DAY: u32 = 57_707;

/// A day of the calendar, with a year that is not before the year 0.
#[derive(Clone, Copy)]
pub struct CivilDate {
    pub year: u16,
    pub month: u8,
    pub day: u8,
}

/// The date of a day, which is told in days since 1970-01-01.
pub fn date_of_day(day: u32) -> CivilDate
    requires { day ≤ LAST_DAY }
    ensures { result ≡ date_of day }
{
    let date = Date::from_unix_epoch_day(i64::from(day)).unwrap();
    CivilDate {
        year: date.year.unsigned_abs(),
        month: date.month,
        day: date.day,
    }
}

/// The day of a date, in days since 1970-01-01.
pub fn day_of_date(date: CivilDate) -> u32
    requires civil { IsCivilDate date }
    requires from { 2000 ≤ date.year }
    requires to { date.year ≤ 2127 }
    ensures day { result ≡ unsigned_abs (days_from_civil (pos date.year) date.month date.day) }
    ensures from { 10_957 ≤ result }
    ensures to { result ≤ LAST_DAY }
{
    let date = Date::constrain(date.year as i16, date.month, date.day);
    date.to_unix_epoch_day().unsigned_abs()
}

/// The day of a date from 1999-12-31 to 2127-12-31, in days since 1970-01-01, where the calendar has it.
pub fn day_of_stamps(date: CivilDate) -> Option<i32>
    requires year { date.year < 10_000 }
    requires month { date.month < 100 }
    requires day { date.day < 100 }
    ensures found { IfSome result (λ day. IsDayNumber day × (date ≡ date_of (unsigned_abs day))) }
    ensures only { (day : ℤ) → IsDayNumber day → date ≡ date_of (unsigned_abs day) → result ≡ Some day }
{
    let Ok(date) = Date::new(date.year as i16, date.month as i8, date.day as i8) else {
        return None;
    };
    let day = date.to_unix_epoch_day();
    if day < FIRST_ARCHIVE_DAY || day > LAST_ARCHIVE_DAY {
        return None;
    }
    Some(day)
}

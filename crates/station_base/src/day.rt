ghost use Rattle.std.specs.Prelude.{◌≡◌, ◌<◌, ℕ, ℤ, pos, ◌∷◌, [], IfSome, length};
ghost use Rattle.station_base.specs.declared.calendar.CivilDate.{CivilDate};
ghost use Rattle.station_base.specs.CivilDate.{IsCivilDate};
ghost use Rattle.station_base.specs.DayText.{IsDayNumber, IsSpelled, date_text, day_text};
ghost use Rattle.station_base.specs.Digits.{digits};
ghost use Rattle.jiff_core.specs.Calendar.{days_from_civil};

use crate::calendar::{CivilDate, date_of_day, day_of_stamps};
use crate::digits::{four_digits, two_digits};

/// A day from 1999-12-31 to 2127-12-31, in days since 1970-01-01.
#[derive(Clone, Copy, Debug, PartialEq, Eq, PartialOrd, Ord, Hash)]
pub struct DayNumber(pub i32);

impl DayNumber {
    ghost use Rattle.station_base.specs.declared.day.DayNumber.{DayNumber};

    /// The day that is written so, as `YYYY-MM-DD`.
    pub fn from_text(text: &[u8]) -> Option<DayNumber>
        ensures found { IfSome result (λ day. IsDayNumber day.0 × (text.now ≡ day_text day.0)) }
        ensures only { (day : DayNumber) → IsDayNumber day.0 → text.now ≡ day_text day.0 → result ≡ Some day }
    {
        Some(DayNumber(day_of_stamps(spelled_date(text)?)?))
    }

    /// The day as `YYYY-MM-DD`.
    pub fn text(&self) -> [u8; 10]
        requires { IsDayNumber self.now.0 }
        ensures text { result ≡ day_text self.now.0 }
        ensures date { (date : CivilDate) → IsCivilDate date
            → days_from_civil (pos date.year) date.month date.day ≡ self.now.0 → result ≡ date_text date }
    {
        let date = date_of_day(self.0.unsigned_abs());
        let [y1, y2, y3, y4] = four_digits(date.year);
        let [m1, m2] = two_digits(date.month);
        let [d1, d2] = two_digits(date.day);
        [y1, y2, y3, y4, b'-', m1, m2, b'-', d1, d2]
    }
}

// The year, month and day that are written as `YYYY-MM-DD`, whether the calendar has them or not.
fn spelled_date(text: &[u8]) -> Option<CivilDate>
    ensures found { IfSome result (λ date. IsSpelled date text.now) }
    ensures only { (date : CivilDate) → IsSpelled date text.now → result ≡ Some date }
{
    let [y1, y2, y3, y4, before_month, m1, m2, before_day, d1, d2] = *text else {
        return None;
    };
    if before_month != b'-' || before_day != b'-' {
        return None;
    }
    let (century, year) = (number_of(y1, y2)?, number_of(y3, y4)?);
    let (month, day) = (number_of(m1, m2)?, number_of(d1, d2)?);
    Some(CivilDate {
        year: 100 * u16::from(century) + u16::from(year),
        month,
        day,
    })
}

// The number that two digits write.
fn number_of(tens: u8, units: u8) -> Option<u8>
    ensures found { IfSome result (λ number. (number < 100) × (digits 2 number ≡ tens ∷ units ∷ [])) }
    ensures only { (number : ℕ) → number < 100 → digits 2 number ≡ tens ∷ units ∷ [] → result ≡ Some number }
{
    if !tens.is_ascii_digit() || !units.is_ascii_digit() {
        return None;
    }
    Some(10 * (tens - b'0') + (units - b'0'))
}

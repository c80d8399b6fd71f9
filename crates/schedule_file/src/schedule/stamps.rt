ghost use Rattle.std.specs.Prelude.{◌≡◌};
ghost use Rattle.schedule_file.specs.Words.{date_in_word, clock_of, minute_at};

use crate::schedule::numbers::read_number;
use station_base::Stamp;

// YYYY-MM-DD, whether the calendar has it or not.
#[derive(Clone, Copy)]
pub struct Date {
    pub year: u32,
    pub month: u32,
    pub day: u32,
}

// HH:MM, whether a day has it or not.
#[derive(Clone, Copy)]
pub struct Clock {
    pub hour: u32,
    pub minute: u32,
}

// The date that a word of this form names.
#[tactic(auto, unfolding(crate::specs::Words::date_in_word))]
pub fn read_date(word: &[u8]) -> Option<Date>
    ensures { result ≡ date_in_word word.now }
{
    if word.len() != 10 || word[4] != b'-' || word[7] != b'-' {
        return None;
    }
    let year = read_number(&word[..4])?;
    let month = read_number(&word[5..7])?;
    let day = read_number(&word[8..])?;
    Some(Date { year, month, day })
}

// The time that a word of this form names.
#[tactic(auto, unfolding(crate::specs::Words::clock_of))]
pub fn read_clock(word: &[u8]) -> Option<Clock>
    ensures { result ≡ clock_of word.now }
{
    if word.len() != 5 || word[2] != b':' {
        return None;
    }
    let hour = read_number(&word[..2])?;
    let minute = read_number(&word[3..])?;
    Some(Clock { hour, minute })
}

// The stamp at a time of a date, if there is one.
#[tactic(auto, unfolding(crate::specs::Words::minute_at))]
pub fn stamp_at(date: Date, clock: Clock) -> Option<Stamp>
    ensures { result ≡ minute_at date clock }
{
    if date.year < 2000 || date.year > 2127 || date.month > 12 || date.day > 31 {
        return None;
    }
    if clock.hour > 23 || clock.minute > 59 {
        return None;
    }
    let word = date.day + 32 * date.month + 512 * (date.year - 2000);
    Stamp::from_words(word as u16, (100 * clock.hour + clock.minute) as u16)
}

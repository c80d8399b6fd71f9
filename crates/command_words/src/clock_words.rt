ghost use Rattle.std.specs.Prelude.{◌≡◌, ◌<◌, ◌≤◌, ◌+◌, ◌^◌, true, IfSome, length};
ghost use Rattle.station_base.specs.ClockTime.{can_be_shown};
ghost use Rattle.command_words.specs.ClockWords.{has_form_of_date, has_form_of_time, clock_number, second_at, second_named};

use numerals::{DECIMAL, read_number};
use station_base::ClockTime;

/// The second that a date `YYYY-MM-DD` and a time `HH:MM:SS` name, where the calendar has it and its year is 1900
/// to 2155.
#[tactic(auto, unfolding(crate::specs::ClockWords::second_at))]
pub fn read_second(date: &[u8], time: &[u8]) -> Option<ClockTime>
    ensures second { result ≡ second_at date.now time.now }
    ensures civil { IfSome result (λ second. can_be_shown second ≡ true) }
{
    if has_form_of_date(date) && has_form_of_time(time) {
        read_parts(date, time)
    } else {
        None
    }
}

// The second that the parts of a date and of a time name.
fn read_parts(date: &[u8], time: &[u8]) -> Option<ClockTime>
    requires date { length date.now ≡ 10 }
    requires time { length time.now ≡ 8 }
    ensures second { result ≡ second_named date.now time.now }
    ensures civil { IfSome result (λ second. can_be_shown second ≡ true) }
{
    let second = ClockTime {
        year: read_part(date, 0, 4)?,
        month: read_part(date, 5, 2)? as u8,
        day: read_part(date, 8, 2)? as u8,
        hour: read_part(time, 0, 2)? as u8,
        minute: read_part(time, 3, 2)? as u8,
        second: read_part(time, 6, 2)? as u8,
    };
    if second.is_civil() {
        Some(second)
    } else {
        None
    }
}

// Whether the parts of a date stand where they should.
fn has_form_of_date(word: &[u8]) -> bool
    ensures { result ≡ has_form_of_date word.now }
{
    word.len() == 10 && word[4] == b'-' && word[7] == b'-'
}

// Whether the parts of a time stand where they should.
fn has_form_of_time(word: &[u8]) -> bool
    ensures { result ≡ has_form_of_time word.now }
{
    word.len() == 8 && word[2] == b':' && word[5] == b':'
}

// The number that so many decimal digits of a word write, from a place on.
fn read_part(word: &[u8], place: usize, count: usize) -> Option<u16>
    requires within { place + count ≤ length word.now }
    requires few { count ≤ 4 }
    ensures number { result ≡ clock_number place count word.now }
    ensures below { IfSome result (λ number. number < 10 ^ count) }
{
    Some(read_number(&word[place..place + count], DECIMAL, count)? as u16)
}

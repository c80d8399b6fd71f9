ghost use Rattle.std.specs.Prelude.{◌≡◌, ◌<◌, ◌≤◌, ◌^◌, IfSome, FitsSigned};
ghost use Rattle.std.specs.Int.{w32};
ghost use Rattle.schedule_file.specs.Words.{number_in_word, schedule_number_within, count_in_word, value_in_word, is_negative};

use numerals::DECIMAL;

// The most digits of a number.
const MOST_DIGITS: usize = 7;

// The greatest number.
const MOST: u32 = 9_999_999;

// The number that decimal digits write, of which there are one to seven.
pub fn read_number(digits: &[u8]) -> Option<u32>
    ensures number { result ≡ number_in_word digits.now }
    ensures below { IfSome result (λ number. number ≤ MOST) }
{
    Some(numerals::read_number(digits, DECIMAL, MOST_DIGITS)? as u32)
}

// The same within a range.
pub fn read_within(digits: &[u8], least: u32, greatest: u32) -> Option<u32>
    ensures number { result ≡ schedule_number_within least greatest digits.now }
    ensures from { IfSome result (λ number. least ≤ number) }
    ensures to { IfSome result (λ number. number ≤ greatest) }
{
    Some(numerals::read_within(digits, MOST_DIGITS, u64::from(least), u64::from(greatest))? as u32)
}

// A number that is at least 1.
pub fn read_count(digits: &[u8]) -> Option<u32>
    ensures number { result ≡ count_in_word digits.now }
    ensures from { IfSome result (λ number. 1 ≤ number) }
    ensures to { IfSome result (λ number. number ≤ MOST) }
{
    read_within(digits, 1, MOST)
}

// The value of a field.
#[tactic(auto, unfolding(crate::specs::Words::value_in_word))]
pub fn read_value(word: &[u8]) -> Option<i32>
    ensures value { result ≡ value_in_word word.now }
    ensures fits { IfSome result (λ value. FitsSigned w32 value) }
{
    if !word.is_empty() && word[0] == b'-' {
        Some(-(read_count(&word[1..])? as i32))
    } else {
        Some(read_number(word)? as i32)
    }
}

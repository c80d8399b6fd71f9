ghost use Rattle.std.specs.Prelude.{◌≡◌, ◌≤◌, IfSome};
ghost use Rattle.command_words.specs.Numbers.{command_number_within, year_within};

use numerals::MOST_DIGITS;

// The digits of a year.
const YEAR_DIGITS: usize = 4;

/// The number that one to ten decimal digits write, where it is in this range.
pub fn read_within(word: &str, least: u64, greatest: u64) -> Option<u64>
    ensures number { result ≡ command_number_within least greatest word.now }
    ensures from { IfSome result (λ number. least ≤ number) }
    ensures to { IfSome result (λ number. number ≤ greatest) }
{
    numerals::read_within(word.as_bytes(), MOST_DIGITS, least, greatest)
}

/// The year that four decimal digits write, where it is in this range, which begins with a year of four digits.
pub fn read_year(word: &str, least: u64, greatest: u64) -> Option<u64>
    ensures number { result ≡ year_within least greatest word.now }
    ensures from { IfSome result (λ number. least ≤ number) }
    ensures to { IfSome result (λ number. number ≤ greatest) }
{
    numerals::read_within(word.as_bytes(), YEAR_DIGITS, least, greatest)
}

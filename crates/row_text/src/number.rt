ghost use Rattle.std.specs.Prelude.{◌≡◌, ◌<◌, ◌≤◌, ◌^◌, IfSome};
ghost use Rattle.row_text.specs.Numbers.{is_padded, plain_number, period_of_text};

use numerals::{DECIMAL, MOST_DIGITS, read_number};
use station_base::Period;

// The digits of a period in minutes, at most.
const PERIOD_DIGITS: usize = 3;

// Whether a zero stands before other digits.
fn is_padded(digits: &[u8]) -> bool
    ensures { result ≡ is_padded digits.now }
{
    digits.len() > 1 && digits[0] == b'0'
}

// The number that at most so many decimal digits write, with no zeros before them.
#[tactic(auto, unfolding(crate::specs::Numbers::plain_number))]
pub fn read_plain(digits: &[u8], most: usize) -> Option<u64>
    requires { most ≤ MOST_DIGITS }
    ensures number { result ≡ plain_number most digits.now }
    ensures below { IfSome result (λ number. number < 10 ^ most) }
{
    if is_padded(digits) {
        return None;
    }
    read_number(digits, DECIMAL, most)
}

// The period of which this is the text.
#[tactic(auto, unfolding(crate::specs::Numbers::period_of_text))]
pub fn read_period(word: &[u8]) -> Option<Period>
    ensures { result ≡ period_of_text word.now }
{
    Period::from_minutes(read_plain(word, PERIOD_DIGITS)? as u16)
}

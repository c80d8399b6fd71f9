ghost use Rattle.std.specs.Prelude.{◌≡◌, ◌<◌, ◌≤◌, ◌^◌, IfSome};
ghost use Rattle.numerals.specs.Numeral.{decimal_within, number_in};

/// The base of decimal digits.
pub const DECIMAL: u32 = 10;

/// The base of hexadecimal digits, of which letters may be in either case.
pub const HEXADECIMAL: u32 = 16;

/// The most digits that are read as a number.
pub const MOST_DIGITS: usize = 10;

/// The number that digits of this base write, where there is one digit at least and so many at most. Leading zeros are read.
/// None where the word is no such digits.
pub fn read_number(digits: &[u8], base: u32, most: usize) -> Option<u64>
    requires least_base { 2 ≤ base }
    requires greatest_base { base ≤ HEXADECIMAL }
    requires fits { most ≤ MOST_DIGITS }
    ensures number { result ≡ number_in base most digits.now }
    ensures below { IfSome result (λ number. number < base ^ most) }
{
    if digits.is_empty() || digits.len() > most {
        return None;
    }
    let mut number = 0;
    for digit in digits {
        number = number * u64::from(base) + u64::from(char::from(*digit).to_digit(base)?);
    }
    Some(number)
}

/// The number that at most so many decimal digits write, where it is from the least to the greatest one.
#[tactic(auto, unfolding(crate::specs::Numeral::decimal_within))]
pub fn read_within(digits: &[u8], most: usize, least: u64, greatest: u64) -> Option<u64>
    requires fits { most ≤ MOST_DIGITS }
    ensures number { result ≡ decimal_within most least greatest digits.now }
    ensures from { IfSome result (λ number. least ≤ number) }
    ensures to { IfSome result (λ number. number ≤ greatest) }
{
    let number = read_number(digits, DECIMAL, most)?;
    if number < least || number > greatest {
        return None;
    }
    Some(number)
}

ghost use Rattle.std.specs.Prelude.{◌≡◌, ◌<◌, length};
ghost use Rattle.station_base.specs.Digits.{digits};
ghost use Rattle.station_base.specs.NumberText.{number_text};

// The two digits of each number below 100.
static PAIRS: [u8; 200] = *b"\
    00010203040506070809\
    10111213141516171819\
    20212223242526272829\
    30313233343536373839\
    40414243444546474849\
    50515253545556575859\
    60616263646566676869\
    70717273747576777879\
    80818283848586878889\
    90919293949596979899";

// The least numbers of two, three, four and five digits.
pub const TWO_DIGITS: u32 = 10;

pub const THREE_DIGITS: u32 = 100;

pub const FOUR_DIGITS: u32 = 1_000;

pub const FIVE_DIGITS: u32 = 10_000;

/// The two decimal digits of a number below 100.
#[tactic(auto, using(crate::proofs::Pairs::pair_at))]
pub fn two_digits(number: u8) -> [u8; 2]
    requires { number < 100 }
    ensures { result ≡ digits 2 number }
{
    let at = 2 * usize::from(number);
    let (tens, units) = (PAIRS[at], PAIRS[at + 1]);
    [tens, units]
}

/// The four decimal digits of a number below 10,000.
#[tactic(auto, using(crate::proofs::DigitPairs::four_digits))]
pub fn four_digits(number: u16) -> [u8; 4]
    requires { number < 10_000 }
    ensures { result ≡ digits 4 number }
{
    let [thousands, hundreds] = two_digits((number / 100) as u8);
    let [tens, units] = two_digits((number % 100) as u8);
    [thousands, hundreds, tens, units]
}

/// How many digits a number has in decimal.
#[tactic(auto, using(crate::proofs::NumberWidths::width_more))]
pub fn digit_count(number: u32) -> usize
    ensures { result ≡ length (number_text number) }
{
    let mut count = 0;
    let mut left = number;
    while left >= FIVE_DIGITS {
        left /= FIVE_DIGITS;
        count += 4;
    }
    count + few_digits(left)
}

// The same of a number below 10,000.
#[tactic(auto, using(crate::proofs::NumberWidths::few_widths))]
fn few_digits(number: u32) -> usize
    requires { number < FIVE_DIGITS }
    ensures { result ≡ length (number_text number) }
{
    if number < TWO_DIGITS {
        1
    } else if number < THREE_DIGITS {
        2
    } else if number < FOUR_DIGITS {
        3
    } else {
        4
    }
}

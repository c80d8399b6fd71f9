ghost use Rattle.std.specs.Prelude.{◌≡◌, ◌*◌, ◌<◌, ◌≤◌, ◌^◌, IfSome, option_map, length};
ghost use Rattle.numerals.specs.Pairs.{bytes_within, pair_of};

use crate::numeral::HEXADECIMAL;
use arrayvec::ArrayVec;

/// The bytes that pairs of hexadecimal digits write, one at least and so many at most. None where the word is no such pairs.
#[tactic(auto, unfolding(crate::specs::Pairs::bytes_within))]
pub fn read_pairs<const MOST: usize>(word: &[u8]) -> Option<ArrayVec<u8, MOST>>
    requires fits { 2 * MOST < 2 ^ 64 }
    ensures bytes { result ≡ option_map (λ bytes. record { items = bytes }) (bytes_within MOST word.now) }
    ensures some { IfSome result (λ bytes. 1 ≤ length bytes.items) }
    ensures few { IfSome result (λ bytes. length bytes.items ≤ MOST) }
{
    if word.is_empty() || word.len() > 2 * MOST {
        return None;
    }
    let mut bytes = ArrayVec::new();
    let mut rest = word;
    while rest.len() >= 2 {
        bytes.push(read_pair(rest[0], rest[1])?);
        rest = &rest[2..];
    }
    if !rest.is_empty() {
        return None;
    }
    Some(bytes)
}

// The byte that two hexadecimal digits write.
fn read_pair(high: u8, low: u8) -> Option<u8>
    ensures { result ≡ pair_of high low }
{
    let high = char::from(high).to_digit(HEXADECIMAL)?;
    let low = char::from(low).to_digit(HEXADECIMAL)?;
    Some((16 * high + low) as u8)
}

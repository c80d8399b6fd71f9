ghost use Rattle.std.specs.Prelude.{◌≡◌, option_map};
ghost use Rattle.schedule_file.specs.Pieces.{words_left};
ghost use Rattle.schedule_file.specs.Words.{masks_of, fate_of, lost_in, cut_in, drop_in, flip_in};

use crate::fate::{Fate, MOST_MASKS};
use crate::schedule::names;
use crate::schedule::numbers::read_number;
use crate::schedule::pieces::next_word;
use arrayvec::ArrayVec;
use numerals::read_pairs;

// A FATE.
#[tactic(auto, unfolding(crate::specs::Words::fate_of))]
pub fn read_fate(words: &[u8]) -> Option<Fate>
    ensures { result ≡ fate_of (words_left words.now) }
{
    let (word, rest) = next_word(words)?;
    if word == names::LOST {
        read_lost(rest)
    } else if word == names::CUT {
        read_cut(rest)
    } else if word == names::DROP {
        read_drop(rest)
    } else if word == names::FLIP {
        read_flip(rest)
    } else {
        None
    }
}

fn read_lost(words: &[u8]) -> Option<Fate>
    ensures { result ≡ lost_in (words_left words.now) }
{
    match next_word(words) {
        None => Some(Fate::Lost),
        Some(_) => None,
    }
}

fn read_cut(words: &[u8]) -> Option<Fate>
    ensures { result ≡ cut_in (words_left words.now) }
{
    let (count, rest) = next_word(words)?;
    match next_word(rest) {
        None => Some(Fate::Cut(read_number(count)?)),
        Some(_) => None,
    }
}

fn read_drop(words: &[u8]) -> Option<Fate>
    ensures { result ≡ drop_in (words_left words.now) }
{
    let (place, rest) = next_word(words)?;
    let (count, rest) = next_word(rest)?;
    match next_word(rest) {
        None => Some(Fate::Dropped {
            place: read_number(place)?,
            count: read_number(count)?,
        }),
        Some(_) => None,
    }
}

fn read_flip(words: &[u8]) -> Option<Fate>
    ensures { result ≡ flip_in (words_left words.now) }
{
    let (place, rest) = next_word(words)?;
    let (masks, rest) = next_word(rest)?;
    match next_word(rest) {
        None => Some(Fate::Flipped {
            place: read_number(place)?,
            masks: read_masks(masks)?,
        }),
        Some(_) => None,
    }
}

// One to sixteen masks.
fn read_masks(word: &[u8]) -> Option<ArrayVec<u8, MOST_MASKS>>
    ensures { result ≡ option_map (λ masks. record { items = masks }) (masks_of word.now) }
{
    read_pairs(word)
}

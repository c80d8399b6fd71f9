ghost use Rattle.std.specs.Prelude.{◌≡◌, ◌<◌, ◌∷◌, List, None, Some, IfSome, MatchOption, true, bytes_eq, FitsSigned};
ghost use Rattle.std.specs.Int.{w32};
ghost use Rattle.station_base.specs.Fields.{name_of};
ghost use Rattle.schedule_file.specs.Pieces.{words_left};
ghost use Rattle.schedule_file.specs.Words.{Named, named_in};
ghost use Rattle.schedule_file.specs.Forms.{none_taken, no_values, named_values_in};
ghost use Rattle.schedule_file.specs.Naming.{named_on};

use crate::schedule::numbers::read_value;
use crate::schedule::pieces::{next_word, place_in};
use archive_record::{Rec52, RecordRead, read};
use station_base::{FIELD_COUNT, FieldId, Period, Row};

// The values that were named so far.
#[derive(Clone, Copy)]
pub struct Naming {
    // Whether each name was that of a field, and none came twice.
    pub known: bool,
    pub taken: [bool; FIELD_COUNT],
    pub values: [Option<i32>; FIELD_COUNT],
}

impl Naming {
    fn new() -> Naming
        ensures known { result.known ≡ true }
        ensures taken { result.taken ≡ none_taken }
        ensures values { result.values ≡ no_values }
    {
        Naming {
            known: true,
            taken: [false; FIELD_COUNT],
            values: no_values(),
        }
    }

    // Takes a value under a name.
    fn take(&mut self, name: &[u8], value: i32)
        ensures { (others : List Named)
            → named_on self.new others ≡ named_on self.old (record { name = name.now; value = value } ∷ others) }
    {
        match FieldId::by_bytes(name) {
            Some(field) if !self.taken[field.index()] => {
                self.taken[field.index()] = true;
                self.values[field.index()] = Some(value);
            }
            _ => self.known = false,
        }
    }
}

// Values for fields by their names.
#[tactic(auto, unfolding(crate::specs::Forms::named_values_in))]
pub fn read_values(words: &[u8]) -> Option<Option<[Option<i32>; FIELD_COUNT]>>
    ensures { result ≡ named_values_in (words_left words.now) }
{
    let mut naming = Naming::new();
    let mut rest = words;
    while let Some((word, more)) = next_word(rest) {
        let (name, value) = read_named(word)?;
        naming.take(name, value);
        rest = more;
    }
    Some(naming.known.then_some(naming.values))
}

// A name and a value.
#[tactic(auto, unfolding(crate::specs::Words::named_in))]
fn read_named(word: &[u8]) -> Option<(&[u8], i32)>
    ensures fits { IfSome result (λ pair. FitsSigned w32 pair.1) }
    ensures named { MatchOption result (named_in word.now ≡ None) (λ pair. named_in word.now
        ≡ Some (record { name = pair.0.now; value = pair.1 })) }
{
    let equals = place_in(word, b'=')?;
    let value = read_value(&word[equals + 1..])?;
    Some((&word[..equals], value))
}

// No value, and 0 where no mark tells that.
fn no_values() -> [Option<i32>; FIELD_COUNT]
    ensures { result ≡ no_values }
{
    match read(Rec52::default().bytes(), Period::shortest()) {
        RecordRead::Row(row) => row.values,
        _ => Row::default().values,
    }
}

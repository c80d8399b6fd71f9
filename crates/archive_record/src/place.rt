ghost use Rattle.std.specs.Prelude.{◌≡◌, ◌+◌, ◌<◌, ◌≤◌, ◌↔◌, ◌⊎◌, ℕ, IsSome, IfSome, slice_index};
ghost use Rattle.archive_record.specs.Kind.{IsRaw, raw_at, width_of, word_at};
ghost use Rattle.archive_record.specs.Place.{record_size};

use crate::kind::Kind;

/// How many bytes a record has.
pub const RECORD_SIZE: usize = 52;

/// Where a field stands in a record.
#[derive(Clone, Copy, Debug)]
pub struct Place {
    pub offset: usize,
    pub kind: Kind,
    /// The number that stands for a missing value, without a sign.
    pub mark: Option<u16>,
}

impl Place {
    ghost use Rattle.archive_record.specs.Place.{IsPlace, CanHold, told_value, value_in};

    /// The value that a record has here.
    pub fn value_in(&self, bytes: &[u8; RECORD_SIZE]) -> Option<i32>
        requires { IsPlace self.now }
        ensures { result ≡ value_in bytes.now self.now }
    {
        let raw = match self.kind {
            Kind::SignedWord | Kind::Word => word_at(bytes, self.offset),
            Kind::Byte | Kind::Degrees => u16::from(bytes[self.offset]),
        };
        if self.mark == Some(raw) {
            None
        } else {
            Some(self.kind.value(raw))
        }
    }

    /// The number that tells a value here. There is none for a value that the field cannot have.
    pub fn raw(&self, value: Option<i32>) -> Option<u16>
        requires { IsPlace self.now }
        ensures can { IsSome result ↔ CanHold self.now value }
        ensures found { IfSome result (λ raw. IsRaw self.now.kind raw × (told_value self.now raw ≡ value)) }
    {
        let Some(value) = value else {
            return self.mark;
        };
        let raw = self.kind.raw(value)?;
        (self.mark != Some(raw)).then_some(raw)
    }

    /// Writes a number here.
    pub fn put(&self, bytes: &mut [u8; RECORD_SIZE], raw: u16)
        requires place { IsPlace self.now }
        requires raw { IsRaw self.now.kind raw }
        ensures raw { raw_at bytes.new self.now.kind self.now.offset ≡ raw }
        ensures others { (i : ℕ) → (i < self.now.offset) ⊎ (self.now.offset + width_of self.now.kind ≤ i)
            → slice_index bytes.new i ≡ slice_index bytes.old i }
    {
        match self.kind {
            Kind::SignedWord | Kind::Word => put_word(bytes, self.offset, raw),
            Kind::Byte | Kind::Degrees => bytes[self.offset] = raw as u8,
        }
    }
}

/// The two bytes at an offset as one number, the low one first.
pub fn word_at(bytes: &[u8; RECORD_SIZE], offset: usize) -> u16
    requires { offset + 2 ≤ record_size }
    ensures { result ≡ word_at bytes.now offset }
{
    u16::from_le_bytes([bytes[offset], bytes[offset + 1]])
}

/// Writes a number as two bytes, the low one first.
pub fn put_word(bytes: &mut [u8; RECORD_SIZE], offset: usize, word: u16)
    requires { offset + 2 ≤ record_size }
    ensures word { word_at bytes.new offset ≡ word }
    ensures others { (i : ℕ) → (i < offset) ⊎ (offset + 2 ≤ i) → slice_index bytes.new i ≡ slice_index bytes.old i }
{
    let [low, high] = word.to_le_bytes();
    bytes[offset] = low;
    bytes[offset + 1] = high;
}

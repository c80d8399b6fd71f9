ghost use Rattle.std.specs.Prelude.{◌≡◌, ◌≢◌, ◌<◌, ◌^◌, ℕ, true};
ghost use Rattle.std.specs.Option.{SomeIff};
ghost use Rattle.station_base.specs.FieldSet.{is_member, are_missing};
ghost use Rattle.station_base.specs.Fields.{field_count};

use crate::field::{FIELD_COUNT, FieldId};
use std::marker::Model;

/// Some of the fields, such as those that limits made missing. As a number it has bit f set for field f.
#[derive(Clone, Copy, Debug, PartialEq, Eq)]
pub struct FieldSet {
    bits: u64,
}

impl Model for FieldSet {
    ghost use Rattle.std.specs.Prelude.{ℕ, ◌<◌, ◌^◌};
    ghost use Rattle.station_base.specs.Fields.{field_count};

    ghost Value = { ℕ };

    ghost view = { λ s. s.bits };

    ghost invariant = { λ s. s.bits < 2 ^ field_count };

    ghost inverse = { λ bits. record { bits = bits } };
}

impl FieldSet {
    /// No field.
    pub fn empty() -> FieldSet
        ensures { result ≡ 0 }
    {
        FieldSet { bits: 0 }
    }

    /// The fields of a number, where no bit from 37 on is set.
    pub fn from_bits(bits: u64) -> Option<FieldSet>
        ensures { SomeIff result (bits < 2 ^ field_count) bits }
    {
        if bits >> FIELD_COUNT == 0 {
            Some(FieldSet { bits })
        } else {
            None
        }
    }

    /// The number of these fields.
    pub fn bits(&self) -> u64
        ensures bits { result ≡ self.now }
        ensures range { result < 2 ^ field_count }
    {
        self.bits
    }

    /// Whether the field is one of them.
    pub fn contains(&self, field: FieldId) -> bool
        ensures { result ≡ is_member self.now field }
    {
        self.bits >> field.index() & 1 == 1
    }

    /// These fields and one more.
    pub fn with(&self, field: FieldId) -> FieldSet
        ensures added { is_member result field ≡ true }
        ensures others { (other : ℕ) → other ≢ field → is_member result other ≡ is_member self.now other }
    {
        FieldSet {
            bits: self.bits | 1 << field.index(),
        }
    }

    /// Whether none of these fields has a value.
    pub fn are_missing(&self, values: &[Option<i32>; FIELD_COUNT]) -> bool
        ensures { result ≡ are_missing self.now values.now }
    {
        if self.bits == 0 {
            return true;
        }
        for (index, value) in values.iter().enumerate() {
            if value.is_some() && self.contains(FieldId::from_index(index).unwrap()) {
                return false;
            }
        }
        true
    }
}

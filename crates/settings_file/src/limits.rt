ghost use Rattle.std.specs.Prelude.{◌≡◌};

use crate::fault::{Section, SettingsFault};
use crate::key_place::KeyPlace;
use crate::range::Range;
use crate::table::{Filled, read_table};
use station_base::{FIELD_COUNT, FieldId};
use toml::Value;

const LIMIT: Range = Range {
    least: -2_000_000_000,
    greatest: 2_000_000_000,
};

/// Which calibrated values of a field are kept: those from `least` to `greatest`. A side that is `None` has no limit.
#[derive(Clone, Copy, Debug, PartialEq, Eq)]
pub struct Limits {
    /// In the field's unit, within 2,000,000,000 either way.
    pub least: Option<i32>,
    /// In the field's unit, within 2,000,000,000 either way.
    pub greatest: Option<i32>,
}

impl Limits {
    ghost use Rattle.std.specs.Prelude.{◌↔◌, IsTrue};
    ghost use Rattle.settings_file.specs.Sections.{are_crossed};

    /// Each value is kept.
    pub const NONE: Limits = Limits {
        least: None,
        greatest: None,
    };

    // The least value is above the greatest.
    fn are_crossed(&self) -> bool
        ensures { result ≡ are_crossed self.now.least self.now.greatest }
    {
        match (self.least, self.greatest) {
            (Some(least), Some(greatest)) => greatest < least,
            _ => false,
        }
    }
}

impl Filled for Limits {
    ghost use Rattle.settings_file.specs.Sections.{limits_key};
    ghost use Rattle.settings_file.specs.Limits.{AreLimits};

    ghost filled = { limits_key };

    ghost valid = { AreLimits };

    fn fill(self, at: &KeyPlace, key: &str, value: &Value) -> Result<Self, SettingsFault> {
        match key {
            "least" => Ok(Limits {
                least: Some(LIMIT.whole_number(at, value)?),
                ..self
            }),
            "greatest" => Ok(Limits {
                greatest: Some(LIMIT.whole_number(at, value)?),
                ..self
            }),
            _ => Err(at.unknown_key()),
        }
    }
}

// The limits of the fields by their numbers, where they are named.
impl Filled for [Option<Limits>; FIELD_COUNT] {
    ghost use Rattle.settings_file.specs.Sections.{all_limits_key};
    ghost use Rattle.settings_file.specs.Named.{AreAllLimits};

    ghost filled = { all_limits_key };

    ghost valid = { AreAllLimits };

    fn fill(mut self, at: &KeyPlace, key: &str, value: &Value) -> Result<Self, SettingsFault> {
        let field = at.field(key)?;
        let numbers = at.table(value)?;
        let limits = read_table(at.section, Some(field), numbers, Limits::NONE)?;
        if limits.are_crossed() {
            return Err(at.section.crossed(field));
        }
        self[field.index()] = Some(limits);
        Ok(self)
    }
}

impl Section {
    ghost use Rattle.settings_file.specs.Sections.{crossed_in};

    // The limits of a field in this section are crossed.
    fn crossed(self, field: FieldId) -> SettingsFault
        ensures { result ≡ crossed_in self field }
    {
        match self {
            Section::ChangeLimits { at } => SettingsFault::CrossedInChange { at, field },
            _ => SettingsFault::LimitsCrossed(field),
        }
    }
}

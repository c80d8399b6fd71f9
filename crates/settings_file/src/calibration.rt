ghost use Rattle.std.specs.Prelude.{◌≡◌};

use crate::fault::SettingsFault;
use crate::key_place::KeyPlace;
use crate::range::Range;
use crate::table::{Filled, read_table};
use station_base::FIELD_COUNT;
use toml::Value;

const NUM: Range = Range {
    least: 0,
    greatest: 16,
};

const DEN: Range = Range {
    least: 1,
    greatest: 10_000,
};

const ADD: Range = Range {
    least: -900_000,
    greatest: 900_000,
};

/// How the values of a field are calibrated: `v` becomes `v * num / den`, rounded towards the lesser number, and `add` more.
#[derive(Clone, Copy, Debug, PartialEq, Eq)]
pub struct Calibration {
    /// From 0 to 16.
    pub num: i32,
    /// From 1 to 10,000.
    pub den: i32,
    /// From -900,000 to 900,000, in the field's unit.
    pub add: i32,
}

impl Calibration {
    /// Each value stays as it is.
    pub const NONE: Calibration = Calibration {
        num: 1,
        den: 1,
        add: 0,
    };
}

impl Filled for Calibration {
    ghost use Rattle.settings_file.specs.Sections.{calibration_key};
    ghost use Rattle.settings_file.specs.Calibration.{IsCalibration};

    ghost filled = { calibration_key };

    ghost valid = { IsCalibration };

    fn fill(self, at: &KeyPlace, key: &str, value: &Value) -> Result<Self, SettingsFault> {
        match key {
            "num" => Ok(Calibration {
                num: NUM.whole_number(at, value)?,
                ..self
            }),
            "den" => Ok(Calibration {
                den: DEN.whole_number(at, value)?,
                ..self
            }),
            "add" => Ok(Calibration {
                add: ADD.whole_number(at, value)?,
                ..self
            }),
            _ => Err(at.unknown_key()),
        }
    }
}

// The calibrations of the fields by their numbers, where they are named.
impl Filled for [Option<Calibration>; FIELD_COUNT] {
    ghost use Rattle.settings_file.specs.Sections.{calibrations_key};
    ghost use Rattle.settings_file.specs.Named.{AreCalibrations};

    ghost filled = { calibrations_key };

    ghost valid = { AreCalibrations };

    fn fill(mut self, at: &KeyPlace, key: &str, value: &Value) -> Result<Self, SettingsFault> {
        let field = at.field(key)?;
        let numbers = at.table(value)?;
        let calibration = read_table(at.section, Some(field), numbers, Calibration::NONE)?;
        self[field.index()] = Some(calibration);
        Ok(self)
    }
}

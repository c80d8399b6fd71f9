ghost use Rattle.std.specs.Prelude.{◌≡◌, ◌≢◌, ◌≤◌, [], Ok, Err};
ghost use Rattle.toml.specs.View.{view};
ghost use Rattle.settings_file.specs.Values.{period_in_value};

use crate::calibration::Calibration;
use crate::change::Changes;
use crate::change_read::read_changes;
use crate::corrections::Corrections;
use crate::fault::{Section, SettingsFault};
use crate::key_place::KeyPlace;
use crate::limits::Limits;
use crate::range::Range;
use crate::table::{Filled, read_table};
use station_base::{FieldId, MOST_ROWS, Period, Stamp};
use std::alloc::Global;
use std::marker::Model;
use toml::Value;

const ROWS: Range = Range {
    least: 1,
    greatest: MOST_ROWS as i32,
};

// The minutes between two records, where the file does not name them.
const MINUTES: u16 = 5;

/// The settings of a station. They hold no heap memory, and have about 22,800 bytes: lend them.
#[derive(Clone, Copy, Debug)]
pub struct Settings {
    period: Period,
    most: u32,
    own: Corrections,
    changes: Changes,
}

impl Model for Settings {
    ghost use Rattle.settings_file.specs.StationSettings.{StationSettings, AreSettings};

    ghost Value = { StationSettings };

    ghost view = { λ s. record { period = s.period; most = s.most; own = s.own; changes = s.changes } };

    ghost invariant = { λ s. AreSettings
        (record { period = s.period; most = s.most; own = s.own; changes = s.changes }) };

    ghost inverse = { λ s. record { period = s.period; most = s.most; own = s.own; changes = s.changes } };
}

impl Settings {
    ghost use Rattle.std.specs.Prelude.{IsUtf8};
    ghost use Rattle.toml.specs.Errors.{IsBlank};
    ghost use Rattle.settings_file.specs.Calibration.{IsCalibration};
    ghost use Rattle.settings_file.specs.Limits.{AreLimits};
    ghost use Rattle.settings_file.specs.StationSettings.{plain_settings, calibration_of, limits_of};
    ghost use Rattle.settings_file.specs.Reading.{settings_of};
    ghost use Rattle.station_base.specs.Limits.{most_rows};

    /// The settings of an empty file: a period of 5 minutes, at most 1,048,576 rows, no calibration, no limits and no
    /// change.
    pub fn plain() -> Settings
        ensures { result ≡ plain_settings }
    {
        Settings {
            period: Period::from_minutes(MINUTES).unwrap(),
            most: MOST_ROWS,
            own: Corrections::NONE,
            changes: Changes::none(),
        }
    }

    /// Reads a settings file, or answers its first fault.
    pub fn read(alloc: Global, bytes: &[u8]) -> Result<Settings, SettingsFault>
        ensures exact { result ≢ Err SettingsFault.OutOfMemory → result ≡ settings_of bytes.now }

        // A file of blanks and comments settles nothing, and takes no memory.
        ensures blank { IsUtf8 bytes.now → IsBlank bytes.now → result ≡ Ok plain_settings }
        ensures empty { bytes.now ≡ [] → result ≡ Ok plain_settings }
    {
        match toml::table_from_slice(alloc, bytes) {
            Ok(table) => read_table(Section::Top, None, &table, Settings::plain()),
            Err(error) if error.is_memory() => Err(SettingsFault::OutOfMemory),
            Err(_) => Err(SettingsFault::Syntax),
        }
    }

    /// How many minutes lie between two records.
    pub fn period(&self) -> Period
        ensures { result ≡ self.now.period }
    {
        self.period
    }

    /// How many rows the archive may hold.
    pub fn most(&self) -> u32
        ensures value { result ≡ self.now.most }
        ensures from { 1 ≤ result }
        ensures to { result ≤ most_rows }
    {
        self.most
    }

    /// How the values of a field are calibrated in a row of this stamp: as the last change says that is not from a later
    /// stamp and names a calibration of the field, or else as the file's own table does.
    #[tactic(auto, unfolding(crate::specs::StationSettings::calibration_of))]
    pub fn calibration(&self, field: FieldId, stamp: Stamp) -> Calibration
        ensures value { result ≡ calibration_of self.now field stamp }
        ensures range { IsCalibration result }
    {
        self.changes
            .calibration(field, &stamp)
            .or(self.own.calibration(field))
            .unwrap_or(Calibration::NONE)
    }

    /// Which calibrated values of a field are kept in a row of this stamp: as the last change says that is not from a
    /// later stamp and names limits of the field, or else as the file's own table does.
    #[tactic(auto, unfolding(crate::specs::StationSettings::limits_of))]
    pub fn limits(&self, field: FieldId, stamp: Stamp) -> Limits
        ensures value { result ≡ limits_of self.now field stamp }
        ensures range { AreLimits result }
    {
        self.changes
            .limits(field, &stamp)
            .or(self.own.limits(field))
            .unwrap_or(Limits::NONE)
    }
}

impl Filled for Settings {
    ghost use Rattle.settings_file.specs.Reading.{settings_key};

    ghost filled = { settings_key };

    ghost valid = { λ _. Unit {0} };

    fn fill(mut self, at: &KeyPlace, key: &str, value: &Value) -> Result<Self, SettingsFault> {
        match key {
            "calibration" => {
                let fields = at.table(value)?;
                self.own.calibrations = read_table(
                    Section::Calibration,
                    None,
                    fields,
                    self.own.calibrations,
                )?;
            }
            "change" => self.changes = read_changes(at, value)?,
            "limits" => {
                let fields = at.table(value)?;
                self.own.limits = read_table(Section::Limits, None, fields, self.own.limits)?;
            }
            "period" => self.period = period(value)?,
            "rows" => self.most = ROWS.whole_number(at, value)?.unsigned_abs(),
            _ => return Err(at.unknown_key()),
        }
        Ok(self)
    }
}

// The period that a value is.
fn period(value: &Value) -> Result<Period, SettingsFault>
    ensures { result ≡ period_in_value (view value.now) }
{
    let Some(minutes) = value.as_integer() else {
        return Err(SettingsFault::BadPeriod);
    };
    let Ok(minutes) = u16::try_from(minutes) else {
        return Err(SettingsFault::BadPeriod);
    };
    match Period::from_minutes(minutes) {
        Some(period) => Ok(period),
        None => Err(SettingsFault::BadPeriod),
    }
}

ghost use Rattle.std.specs.Prelude.{◌≡◌, IfOk, IfSome, Some, true};
ghost use Rattle.station_base.specs.LastStamp.{exceeds};
ghost use Rattle.toml.specs.View.{view};
ghost use Rattle.station_base.specs.CivilMinute.{IsCivilMinute};
ghost use Rattle.settings_file.specs.Values.{stamp_of};
ghost use Rattle.settings_file.specs.Changes.{AreChanges, IsChange};
ghost use Rattle.settings_file.specs.ChangesRead.{change_of, changes_of};

use crate::change::{Change, Changes, MOST_SETTINGS_CHANGES};
use crate::corrections::Corrections;
use crate::fault::{Section, SettingsFault};
use crate::key_place::KeyPlace;
use crate::table::{Filled, read_table};
use station_base::Stamp;
use toml::Value;

// What the keys of a change say so far: its stamp, where `from` names one, and its corrections.
#[derive(Clone, Copy)]
pub(crate) struct ChangeRead {
    pub from: Option<Stamp>,
    pub named: Corrections,
}

impl ChangeRead {
    const NONE: ChangeRead = ChangeRead {
        from: None,
        named: Corrections::NONE,
    };
}

impl Filled for ChangeRead {
    ghost use Rattle.settings_file.specs.ChangesRead.{change_key};
    ghost use Rattle.settings_file.specs.ChangeIsRead.{IsRead};

    ghost filled = { change_key };

    ghost valid = { IsRead };

    fn fill(mut self, at: &KeyPlace, key: &str, value: &Value) -> Result<Self, SettingsFault> {
        match key {
            "calibration" => {
                let fields = at.table(value)?;
                self.named.calibrations = read_table(
                    at.section.of_calibrations(),
                    None,
                    fields,
                    self.named.calibrations,
                )?;
            }
            "from" => self.from = stamp(value),
            "limits" => {
                let fields = at.table(value)?;
                self.named.limits = read_table(
                    at.section.of_limits(),
                    None,
                    fields,
                    self.named.limits,
                )?;
            }
            _ => return Err(at.unknown_key()),
        }
        Ok(self)
    }
}

impl Section {
    ghost use Rattle.settings_file.specs.Sections.{calibrations_of, limits_section};

    // The section of the calibrations that stand in this one.
    fn of_calibrations(self) -> Section
        ensures { result ≡ calibrations_of self }
    {
        match self {
            Section::Change { at } => Section::ChangeCalibration { at },
            _ => Section::Calibration,
        }
    }

    // The section of the limits that stand in this one.
    fn of_limits(self) -> Section
        ensures { result ≡ limits_section self }
    {
        match self {
            Section::Change { at } => Section::ChangeLimits { at },
            _ => Section::Limits,
        }
    }
}

// The stamp that a value is the text of.
fn stamp(value: &Value) -> Option<Stamp>
    ensures exact { result ≡ stamp_of (view value.now) }
    ensures civil { IfSome result IsCivilMinute }
{
    match value.as_str() {
        Some(text) => Stamp::from_text(text.as_bytes()),
        None => None,
    }
}

// The changes that a value is, in the order of the file.
pub(crate) fn read_changes(at: &KeyPlace, value: &Value) -> Result<Changes, SettingsFault>
    ensures exact { result ≡ changes_of at.now (view value.now) }
    ensures valid { IfOk result AreChanges }
{
    let Some(tables) = value.as_array() else {
        return Err(at.bad_number());
    };
    if tables.len() > MOST_SETTINGS_CHANGES {
        return Err(SettingsFault::TooManyChanges);
    }
    let mut changes = Changes::none();
    let mut last = None;
    for (index, table) in tables.iter().enumerate() {
        let change = read_change(at, index as u8, &last, table)?;
        last = Some(change.from);
        changes.push(&change);
    }
    Ok(changes)
}

// The change of this place in the file, where it is from a later stamp than the last one.
fn read_change(
    at: &KeyPlace,
    index: u8,
    last: &Option<Stamp>,
    value: &Value,
) -> Result<Change, SettingsFault>
    ensures exact { result ≡ change_of at.now index last.now (view value.now) }
    ensures valid { IfOk result IsChange }
    ensures later { IfOk result (λ change. exceeds last.now (Some change.from) ≡ true) }
{
    let keys = at.table(value)?;
    let read = read_table(Section::Change { at: index }, None, keys, ChangeRead::NONE)?;
    let from = read.from.ok_or(SettingsFault::BadFrom {
        index: u32::from(index),
    })?;
    if !is_later(&from, last) {
        return Err(SettingsFault::ChangeOrder {
            index: u32::from(index),
        });
    }
    Ok(Change {
        from,
        named: read.named,
    })
}

// Whether a stamp exceeds the last one, if there is one.
fn is_later(stamp: &Stamp, last: &Option<Stamp>) -> bool
    ensures { result ≡ exceeds last.now (Some stamp.now) }
{
    match last {
        Some(last) => last < stamp,
        None => true,
    }
}

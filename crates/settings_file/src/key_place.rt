ghost use Rattle.std.specs.Prelude.{◌≡◌, ◌<◌, IfOk, MatchResult, Ok, Err};
ghost use Rattle.toml.specs.View.{view, table_view};

use crate::fault::{Section, SettingsFault};
use station_base::FieldId;
use toml::{Table, Value};

// Where a key stands: its section, the field in whose table it is, and its place in its table.
#[derive(Clone, Copy)]
pub(crate) struct KeyPlace {
    pub section: Section,
    pub field: Option<FieldId>,
    pub index: u32,
}

impl KeyPlace {
    ghost use Rattle.settings_file.specs.KeyPlace.{unknown_key, bad_number};
    ghost use Rattle.settings_file.specs.Values.{table_of};
    ghost use Rattle.settings_file.specs.Fields.{field_at};
    ghost use Rattle.station_base.specs.Fields.{field_count};

    pub(crate) fn unknown_key(&self) -> SettingsFault
        ensures { result ≡ unknown_key self.now }
    {
        SettingsFault::UnknownKey {
            section: self.section,
            field: self.field,
            index: self.index,
        }
    }

    pub(crate) fn bad_number(&self) -> SettingsFault
        ensures { result ≡ bad_number self.now }
    {
        SettingsFault::BadNumber {
            section: self.section,
            field: self.field,
            index: self.index,
        }
    }

    // The field that the key names.
    pub(crate) fn field(&self, key: &str) -> Result<FieldId, SettingsFault>
        ensures exact { result ≡ field_at self.now key.now }
        ensures range { IfOk result (λ field. field < field_count) }
    {
        FieldId::by_name(key).ok_or(self.unknown_key())
    }

    // The table that the key's value is.
    pub(crate) fn table<'a>(&self, value: &'a Value) -> Result<&'a Table, SettingsFault>
        ensures { MatchResult result (λ t. table_of self.now (view value.now) ≡ Ok (table_view t.now))
            (λ fault. table_of self.now (view value.now) ≡ Err fault) }
    {
        match value.as_table() {
            Some(table) => Ok(table),
            None => Err(self.bad_number()),
        }
    }
}

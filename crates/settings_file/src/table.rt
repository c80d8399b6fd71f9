ghost use Rattle.std.specs.Prelude.{◌≡◌, ℕ, List, IfOk, Result};
ghost use Rattle.toml.specs.Data.{Data};
ghost use Rattle.toml.specs.View.{view, table_view};
ghost use Rattle.settings_file.specs.declared.key_place.KeyPlace.{KeyPlace};
ghost use Rattle.settings_file.specs.declared.fault.SettingsFault.{SettingsFault};
ghost use Rattle.settings_file.specs.Walk.{walk};

use crate::fault::{Section, SettingsFault};
use crate::key_place::KeyPlace;
use station_base::FieldId;
use toml::{Table, Value};

// What the keys of a table fill, one after another.
pub(crate) trait Filled: Copy {
    ghost filled: { KeyPlace → List ℕ → Data → Self → Result Self SettingsFault };

    ghost valid: { Self → Type 0 };

    fn fill(self, at: &KeyPlace, key: &str, value: &Value) -> Result<Self, SettingsFault>
        requires { valid self }
        ensures exact { result ≡ filled at.now key.now (view value.now) self }
        ensures valid { IfOk result valid };
}

// Fills a value by the keys of a table, in the order of their bytes.
pub(crate) fn read_table<F: Filled>(
    section: Section,
    field: Option<FieldId>,
    table: &Table,
    start: F,
) -> Result<F, SettingsFault>
    requires { F.valid start }
    ensures exact { result ≡ walk F.filled section field 0 (table_view table.now) start }
    ensures valid { IfOk result F.valid }
{
    let mut at = KeyPlace {
        section,
        field,
        index: 0,
    };
    let mut filled = start;
    for (key, value) in table.iter() {
        filled = filled.fill(&at, key.as_str(), value)?;
        at.index = at.index.saturating_add(1);
    }
    Ok(filled)
}

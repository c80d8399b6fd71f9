ghost use Rattle.std.specs.Prelude.{◌≡◌};
ghost use Rattle.toml.specs.View.{view};

use crate::fault::SettingsFault;
use crate::key_place::KeyPlace;
use toml::Value;

// A range of whole numbers, with both ends in it.
#[derive(Clone, Copy)]
pub(crate) struct Range {
    pub least: i32,
    pub greatest: i32,
}

impl Range {
    ghost use Rattle.settings_file.specs.Values.{whole_number};

    // The whole number that the key's value is.
    pub(crate) fn whole_number(self, at: &KeyPlace, value: &Value) -> Result<i32, SettingsFault>
        ensures { result ≡ whole_number self at.now (view value.now) }
    {
        match value.as_integer() {
            Some(number) if i64::from(self.least) <= number && number <= i64::from(self.greatest) =>
                { Ok(number as i32) }
            _ => Err(at.bad_number()),
        }
    }
}

ghost use Rattle.std.specs.Prelude.{◌≡◌};

use settings_file::Settings;
use station_base::Period;

/// A period of 5 minutes, which plain settings have.
pub fn five_minutes() -> Period
    ensures { result ≡ 5 }
{
    Settings::plain().period()
}

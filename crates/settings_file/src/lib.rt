//! The settings of a station, read from a TOML file: the period, the most rows, and for each field a calibration and limits,
//! which may change from a stamp on.
#![tactic(auto)]

mod calibration;
mod change;
mod change_read;
mod corrections;
mod fault;
mod key_place;
mod limits;
mod line;
mod range;
mod settings;
mod table;

pub use calibration::Calibration;
pub use fault::{Section, SettingsFault};
pub use limits::Limits;
pub use line::{LINE_ROOM, Line};
pub use settings::Settings;

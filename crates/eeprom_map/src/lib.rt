//! The EEPROM of a Davis Vantage console: 4,096 bytes, and the settings that stand in them.
#![tactic(auto)]

mod eeprom;
mod rain;

pub use eeprom::{EEPROM_SIZE, ELEVATION, Eeprom, LATITUDE, LONGITUDE, PERIOD, SETUP};
pub use rain::RainUnit;
pub use station_base::OutOfMemory;

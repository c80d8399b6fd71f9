//! The tests of the crates of values, each of which is proved once, without them.
#![tactic(auto)]

#[cfg(test)]
mod archive_record_tests;
#[cfg(test)]
mod crc_ccitt_tests;
#[cfg(test)]
mod eeprom_map_tests;
mod fixtures;
#[cfg(test)]
mod loop_packet_tests;
#[cfg(test)]
mod numerals_tests;
#[cfg(test)]
mod row_text_tests;
#[cfg(test)]
mod soft_record_tests;
#[cfg(test)]
mod station_base_tests;
#[cfg(test)]
mod vantage_frames_tests;

pub use fixtures::{page_of_letters, record_of};

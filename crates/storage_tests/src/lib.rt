//! The tests of what is stored. Its crates are proved once, without them.
#![tactic(auto)]

#[cfg(test)]
mod archive_copy_tests;
#[cfg(test)]
mod archive_import_tests;
#[cfg(test)]
mod archives;
#[cfg(test)]
mod climate_table_tests;
#[cfg(test)]
mod daily_summary_tests;
#[cfg(test)]
mod dated_rows;
pub mod fixtures;
#[cfg(test)]
mod gated_log_tests;
#[cfg(test)]
mod query_service_tests;
#[cfg(test)]
mod settings_file_tests;
#[cfg(test)]
mod shared_file;
#[cfg(test)]
mod weather_book_tests;
#[cfg(test)]
mod weather_reports_tests;

//! The tests of a round and of whole schedules, whose crates are proved once, without them.
#![tactic(auto)]

#[cfg(test)]
mod made_run_tests;
#[cfg(test)]
mod narrow_sink;
mod periods;
#[cfg(test)]
mod replay_member;
#[cfg(test)]
mod replay_opening_tests;
#[cfg(test)]
mod schedule_language_tests;
#[cfg(test)]
mod station_fleet_tests;
#[cfg(test)]
mod station_session_tests;
#[cfg(test)]
mod station_sim_tests;

pub use periods::five_minutes;

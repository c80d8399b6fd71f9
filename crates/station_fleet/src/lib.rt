//! A station of a fleet is the replay of a schedule, with a line and a disk of its own, turn by turn.
#![tactic(auto)]

mod laws;
mod station;

pub use laws::{
    a_schedule_has_few_steps, each_station_begins_its_schedule, each_station_prints_its_replay,
    each_station_runs_its_schedule,
};
pub use station::Station;

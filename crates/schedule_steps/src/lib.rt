//! The steps of a schedule as those of a run: what keeps its rules, and what falls due.
#![tactic(auto)]

mod schedule_laws;
mod steps;

pub use schedule_laws::{accepted, accepted_schedules, records_known, what_a_run_is};
pub use steps::{run_falls_due, wait};

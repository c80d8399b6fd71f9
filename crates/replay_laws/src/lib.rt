//! Laws of rounds and of whole runs over the modelled line.
#![tactic(auto)]

mod acknowledged_laws;
mod premise_laws;
mod round_laws;
mod run_laws;
mod stop_laws;
mod unseen_laws;

pub use acknowledged_laws::kept_is_acknowledged;
pub use premise_laws::{
    a_new_line_is_calm, an_archive_can_overflow, an_attempt_can_be_whole,
    an_overflowed_archive_can_be_taken,
};
pub use round_laws::a_round_over_a_line;
pub use run_laws::{
    attempts_were_made, beginnings, no_more_rows_than_records, rounds_have_room, run_fits,
    schedules, session_rounds,
};
pub use stop_laws::{
    a_round_that_goes_on, a_stopped_round, no_fault_but_a_stop, no_stop_is_passed_over,
};
pub use unseen_laws::unseen_rounds;

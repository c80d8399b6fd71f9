//! Laws of the modelled line: what an attempt takes over it.
#![tactic(auto)]

mod calm_laws;
mod laws;

pub use calm_laws::what_keeps_a_line_calm;
pub use laws::{
    a_header_without_harm, a_page_without_harm, a_wake_without_harm, acknowledged_pages_are_given,
    an_attempt_without_harm, each_acknowledged_page_counts, no_page_counts_too_early, one_attempt,
    pages_of_an_attempt, position, records_fall_due_in_order, records_of_an_attempt, six_waits,
};

//! That all runs of one schedule have one text and are of one kind, as laws.
#![tactic(auto)]

mod one_run_laws;

pub use one_run_laws::{a_run_has_one_kind, a_run_has_one_text, an_attempt_is_fixed};

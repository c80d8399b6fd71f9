//! The correction of rows: calibration, and then limits.
#![tactic(auto)]

mod correction;

pub use correction::corrected;

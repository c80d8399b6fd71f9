//! What no run of a schedule may be, as laws: for each promise of the headline, the runs that break it.
#![tactic(auto)]

mod command_laws;
mod kept_laws;
mod printing_laws;
mod round_laws;
mod row_laws;

pub use command_laws::{no_other_line_is_reported, no_page_is_acknowledged_unstored};
pub use kept_laws::each_schedule_has_a_kept_run;
pub use printing_laws::{
    each_number_of_a_day_is_right, no_row_is_left_out, no_row_is_printed_twice,
};
pub use round_laws::{
    no_acknowledged_page_is_dropped, no_half_page_is_left, no_newer_record_is_left_behind,
    no_round_gives_up_early, no_round_gives_up_unharmed,
};
pub use row_laws::{
    no_acknowledged_row_is_gone, no_row_is_gone, no_row_is_made_up, no_stamp_comes_twice,
};

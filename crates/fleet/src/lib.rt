//! Up to eight stations that take turns, each of which writes its lines with its number before them.
#![tactic(auto)]

mod fleet;
mod laws;
mod member;
mod numbered;
mod pen;
mod run;

pub use fleet::{Fleet, MOST_STATIONS};
pub use laws::{
    an_unseen_station_is_a_member, each_station_has_its_lines, each_station_is_alone,
    what_turns_write_is_written,
};
pub use member::{Member, MemberTurn};
pub use run::FleetEnd;

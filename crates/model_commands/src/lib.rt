//! The commands that run the modelled console: a replay, stations that take turns, a console that is served, and a run that is made.
//!
//! Each command stands out of line. The function that calls one of them would else have room on its stack for the locals of all.
#![tactic(auto)]

mod fleet_laws;
mod fleet_run;
mod judging;
mod laws;
mod making;
mod packets;
mod replaying;
mod serving;

pub use fleet_laws::{
    a_fleet_begins_its_replays, a_fleet_prints_its_replays, a_memory_sink_tells_its_bytes,
    a_replay_has_one_text,
};
pub use fleet_run::run_fleet;
pub use laws::a_served_console_is_that_of_a_run;
pub use making::make_run;
pub use replaying::replay_files;
pub use serving::serve_files;

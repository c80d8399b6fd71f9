ghost use Rattle.std.specs.Prelude.{◌<◌, ◌≤◌, ◌^◌, IfOk};
ghost use Rattle.made_run.specs.CountsRun.{CountsRun};
ghost use Rattle.made_run.specs.MakeEnd.{IfDone};

use crate::schedule::{MOST_MADE, made_schedule};
use causes::OutOfMemory;
use loop_packet::LoopPacket;
use schedule_replay::{Counts, ReplayEnd, new_disk, new_line, replay_steps};
use schedule_steps::records_known;
use settings_file::Settings;
use std::alloc::Global;

/// How the run of a made schedule ended.
#[derive(Clone, Copy, Debug, PartialEq, Eq)]
pub enum MakeEnd {
    /// It was run to its end, and these are its counts.
    Done(Counts),
    /// It found no memory.
    OutOfMemory,
}

/// Makes a schedule of so many records from a seed, and runs it over a console and an archive of its own, with plain
/// settings. Of what it gives only the counts are kept.
pub fn make(alloc: Global, seed: u32, records: u32) -> MakeEnd
    requires seed { seed < 2 ^ 31 }
    requires from { 1 ≤ records }
    requires to { records ≤ MOST_MADE }
    ensures { IfDone result (CountsRun seed records) }
{
    match counted_run(alloc, seed, records) {
        Ok(counts) => MakeEnd::Done(counts),
        Err(_) => MakeEnd::OutOfMemory,
    }
}

// The counts of the run of a made schedule. `OutOfMemory` where it found no memory.
fn counted_run(alloc: Global, seed: u32, records: u32) -> Result<Counts, OutOfMemory>
    requires seed { seed < 2 ^ 31 }
    requires from { 1 ≤ records }
    requires to { records ≤ MOST_MADE }
    ensures { IfOk result (CountsRun seed records) }
{
    let settings = Settings::plain();
    let steps = made_schedule(alloc, settings.period(), seed, records)?;
    records_known(&steps);
    let mut line = new_line(alloc, settings.period(), LoopPacket::blank())?;
    let mut disk = new_disk(alloc, records)?;
    let mut counts = Counts::new();
    match replay_steps(alloc, &settings, &steps, &mut line, &mut disk, &mut counts) {
        ReplayEnd::Done => Ok(counts),
        ReplayEnd::OutOfMemory => Err(OutOfMemory),
        ReplayEnd::Unseen | ReplayEnd::WriteFault => unreachable!(),
    }
}

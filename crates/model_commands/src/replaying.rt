ghost use Rattle.std.specs.Prelude.{◌≡◌, []};
ghost use Rattle.model_commands.specs.ReplayRun.{replay_status, replays, replays_files};
ghost use Rattle.run_output.specs.Ended.{output_of};
ghost use Rattle.run_output.specs.Outside.{means};
ghost use Rattle.schedule_steps.specs.Accepted.{ScheduleIsAccepted};
ghost use Rattle.schedule_replay.specs.Replayed.{steps_in};

use crate::judging::read_schedule;
use crate::packets::blank_packet;
use disk_model::Disk;
use run_output::{Ending, Outside, Status, Text, settle};
use schedule_file::Schedule;
use schedule_replay::{ReplayEnd, new_disk, new_line, replay};
use serial_link::Link;
use settings_file::Settings;
use station_io::{Files, Sink};
use std::alloc::Global;

/// Replays the schedule that one file holds under the settings that another holds, which are read first.
#[inline(never)]
pub fn replay_files<F: Files, K: Sink, L: Link, D: Disk>(
    alloc: Global,
    settings: &str,
    schedule: &str,
    outside: &mut Outside<F, K, L, D>,
) -> Result<Text, Ending>
    ensures { replays_files
        (means F.shelf K.outlet L.traffic D.medium) settings.now schedule.now outside.old result outside.new }
{
    let settings = settle(alloc, &mut outside.files, settings)?;
    let schedule = read_schedule(alloc, &mut outside.files, schedule, settings.period())?;
    replay_anew(alloc, &settings, &schedule, &mut outside.out)
}

// Replays a schedule over a new console and a new archive.
fn replay_anew<K: Sink>(
    alloc: Global,
    settings: &Settings,
    schedule: &Schedule,
    out: &mut K,
) -> Result<Text, Ending>
    requires accepted { ScheduleIsAccepted schedule.now }
    requires period { schedule.now.period ≡ settings.now.period }
    ensures { replays K.outlet settings.now (steps_in schedule.now) out.old result out.new }
{
    let packet = blank_packet();
    let Ok(mut line) = new_line(alloc, settings.period(), packet) else {
        return ended(ReplayEnd::OutOfMemory);
    };
    let Ok(mut disk) = new_disk(alloc, schedule.records()) else {
        return ended(ReplayEnd::OutOfMemory);
    };
    ended(replay(alloc, settings, schedule, &mut line, &mut disk, out))
}

// What is given of a replay that ended so.
fn ended(end: ReplayEnd) -> Result<Text, Ending>
    ensures { output_of result ≡ record { text = []; status = replay_status end } }
{
    match end {
        ReplayEnd::Done => Ok(Text::new()),
        ReplayEnd::Unseen => Err(Ending::silent(Status::Unseen)),
        ReplayEnd::WriteFault => Err(Ending::silent(Status::WriteFault)),
        ReplayEnd::OutOfMemory => Err(Ending::silent(Status::OutOfMemory)),
    }
}

ghost use Rattle.std.specs.Prelude.{◌≡◌, ◌<◌, ◌≤◌, ◌^◌, [], All, IfOk, length, vec_len};
ghost use Rattle.std.specs.List.{AllZip};
ghost use Rattle.command_words.specs.Command.{fleet_names, texts};
ghost use Rattle.model_commands.specs.FleetRun.{IsNewStation, fleet_line, fleets, reads_schedules, takes_turns};
ghost use Rattle.model_commands.specs.ScheduleReading.{IsFit};
ghost use Rattle.run_output.specs.Outside.{means};
ghost use Rattle.station_fleet.specs.StationTurns.{station_turning};

use crate::judging::read_schedule;
use crate::packets::blank_packet;
use causes::OutOfMemory;
use command_words::FleetWords;
use disk_model::Disk;
use fleet::{Fleet, FleetEnd, MOST_STATIONS};
use run_output::{Ending, Outside, Status, Text, settle};
use schedule_file::Schedule;
use schedule_replay::{new_disk, new_line};
use serial_link::Link;
use settings_file::Settings;
use station_base::{Period, push_bytes, push_count};
use station_fleet::Station;
use station_io::{Files, Sink};
use std::alloc::Global;

/// Lets stations take turns, one for each schedule, under the settings of one file. The settings are read first, and then the
/// schedules in the order of their names.
#[inline(never)]
pub fn run_fleet<F: Files, K: Sink, L: Link, D: Disk>(
    alloc: Global,
    words: &FleetWords<'_>,
    outside: &mut Outside<F, K, L, D>,
) -> Result<Text, Ending>
    requires seed { words.now.seed < 2 ^ 31 }
    ensures { fleets (means F.shelf K.outlet L.traffic D.medium)
        (fleet_names words.now) outside.old result outside.new }
{
    let settings = settle(alloc, &mut outside.files, words.settings)?;
    let schedules = read_schedules(alloc, &words.schedules, settings.period(), outside)?;
    let Ok(stations) = make_stations(alloc, &settings, schedules) else {
        return Err(Ending::silent(Status::OutOfMemory));
    };
    take_turns(stations, words.seed, &mut outside.out)
}

// Reads the files of these schedules.
fn read_schedules<F: Files, K: Sink, L: Link, D: Disk>(
    alloc: Global,
    names: &[&str],
    period: Period,
    outside: &mut Outside<F, K, L, D>,
) -> Result<Vec<Schedule>, Ending>
    ensures reads { reads_schedules (means F.shelf K.outlet L.traffic D.medium) period []
        (texts names.now) outside.old result outside.new }
    ensures fit { IfOk result (λ schedules. All (IsFit period) schedules.items) }
    ensures as_many { IfOk result (λ schedules. vec_len schedules ≡ length names.now) }
{
    let mut schedules = Vec::new(alloc);
    for name in names {
        let schedule = read_schedule(alloc, &mut outside.files, name, period)?;
        if schedules.push(schedule).is_err() {
            return Err(Ending::silent(Status::OutOfMemory));
        }
    }
    Ok(schedules)
}

// A station for each schedule. It stands out of line: its locals would else lie beside those of the turns.
#[inline(never)]
fn make_stations(
    alloc: Global,
    settings: &Settings,
    schedules: Vec<Schedule>,
) -> Result<Vec<Station>, OutOfMemory>
    requires fit { All (IsFit settings.now.period) schedules.items }
    ensures { IfOk result (λ stations. AllZip (IsNewStation settings.now) schedules.items stations.items) }
{
    let mut stations = Vec::new(alloc);
    for schedule in schedules {
        stations.push(make_station(alloc, settings, schedule)?)?;
    }
    Ok(stations)
}

// A station that runs this schedule over a new console and a new disk of its own.
fn make_station(
    alloc: Global,
    settings: &Settings,
    schedule: Schedule,
) -> Result<Station, OutOfMemory>
    requires fit { IsFit settings.now.period schedule }
    ensures { IfOk result (IsNewStation settings.now schedule) }
{
    let line = new_line(alloc, settings.period(), blank_packet())?;
    let disk = new_disk(alloc, schedule.records())?;
    Ok(Station::new(alloc, settings, schedule, line, disk))
}

// Has the stations take turns until all have ended.
fn take_turns<K: Sink>(stations: Vec<Station>, seed: u32, out: &mut K) -> Result<Text, Ending>
    requires seed { seed < 2 ^ 31 }
    requires few { vec_len stations ≤ MOST_STATIONS }
    requires may_turn { All station_turning.may_turn stations.items }
    requires left { All (λ s. station_turning.left s < 2 ^ 48) stations.items }
    ensures { takes_turns K.outlet seed stations.items out.old result out.new }
{
    let count = stations.len();
    let mut fleet = Fleet::new(stations);
    match fleet.run(seed, out) {
        FleetEnd::Done { turns, switches } => Ok(line_of(count, turns, switches)),
        FleetEnd::Unseen(_) => Err(Ending::silent(Status::Unseen)),
        FleetEnd::WriteFault => Err(Ending::silent(Status::WriteFault)),
        FleetEnd::OutOfMemory => Err(Ending::silent(Status::OutOfMemory)),
    }
}

// `fleet stations N turns T switches S`.
fn line_of(stations: usize, turns: u64, switches: u64) -> Text
    ensures { result.items ≡ fleet_line stations turns switches }
{
    let mut line = Text::new();
    push_count(&mut line, b"fleet stations ", stations as u64);
    push_count(&mut line, b" turns ", turns);
    push_count(&mut line, b" switches ", switches);
    push_bytes(&mut line, b"\n");
    line
}

ghost use Rattle.std.specs.Prelude.{◌<◌, ◌^◌, IfOk};
ghost use Rattle.station_fleet.specs.StationTurns.{station_turning};

use crate::narrow_sink::NarrowSink;
use fleet::{Fleet, FleetEnd};
use loop_packet::LoopPacket;
use schedule_file::Schedule;
use schedule_replay::{new_disk, new_line};
use schedule_steps::accepted;
use settings_file::Settings;
use station_fleet::Station;
use station_io::{MemSink, Sink};
use std::alloc::Global;
use std::process::Abort;
use std::test::Fail;

// No fleet of these tests writes more bytes.
const ROOM: usize = 10_000;

// A station with a line and a disk of its own.
fn station(rt: &impl Abort, alloc: Global, text: &str) -> Result<Station, Fail>
    ensures may_turn { IfOk result (λ station. station_turning.may_turn station) }
    ensures left { IfOk result (λ station. station_turning.left station < 2 ^ 48) }
{
    let settings = Settings::plain();
    let schedule = Schedule::read(alloc, text.as_bytes(), settings.period()).expect(
        rt,
        "a schedule",
    );
    accepted(&schedule);
    let line = new_line(alloc, settings.period(), LoopPacket::blank())?;
    let disk = new_disk(alloc, schedule.records())?;
    Ok(Station::new(alloc, &settings, schedule, line, disk))
}

// Runs a fleet of three stations, and says how it ended.
fn run_three<K: Sink>(
    rt: &impl Abort,
    alloc: Global,
    schedules: [&str; 3],
    seed: u32,
    out: &mut K,
) -> Result<FleetEnd, Fail>
    requires { seed < 2 ^ 31 }
{
    let stations = [
        station(rt, alloc, schedules[0])?,
        station(rt, alloc, schedules[1])?,
        station(rt, alloc, schedules[2])?,
    ];
    let mut fleet = Fleet::new(Vec::from_array(alloc, stations)?);
    Ok(fleet.run(seed, out))
}

#[test]
fn the_least_unseen_station_is_named(rt: HostRuntime) -> Result<(), Fail> {
    // The changes of the first page pass its check.
    let unseen = "run 2024-07-01 00:05 5\nround\nreply 4 flip 5 011021\nround\n";
    let mut out = MemSink::new(rt.alloc(), ROOM)?;
    let end = run_three(&rt, rt.alloc(), ["", unseen, unseen], 1, &mut out)?;
    assert_eq!(rt; end, FleetEnd::Unseen(2));
    Ok(())
}

#[test]
fn a_write_may_fail_within_a_number(rt: HostRuntime) -> Result<(), Fail> {
    // The line of the first turn, and of that of the second its digit.
    let front = "3 open rows 0\n2";
    let mut out = NarrowSink::new(rt.alloc(), front.len())?;
    let end = run_three(&rt, rt.alloc(), ["", "", ""], 1, &mut out)?;
    assert_eq!(rt; end, FleetEnd::WriteFault);
    assert!(rt; out.taken.bytes() == front.as_bytes());
    Ok(())
}

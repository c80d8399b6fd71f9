use crate::running::{Given, done, holding, plain};
use crate::scripts::DAY;
use archive_record::Rec52;
use console_model::Console;
use disk_model::MemDisk;
use eeprom_map::Eeprom;
use loop_packet::LoopPacket;
use schedule_file::{Fates, Schedule, Step};
use station_base::{Period, Stamp};
use station_sim::Sim;
use std::alloc::Global;
use std::process::Abort;
use std::test::Fail;

// The minutes between two records.
const MINUTES: u16 = 5;

// Room for the archive of all records that a console's ring has, and for the changes that make it.
const LONGEST: usize = 600_000;

const CHANGES: usize = 3_000;

const STATION: [&str; 4] = ["station", "settings", "archive", "console"];

// The record of a stamp, with all missing marks.
fn record(stamp: Stamp) -> Option<Rec52> {
    let mut bytes = *Rec52::default().bytes();
    bytes[..2].copy_from_slice(&stamp.date_word().to_le_bytes());
    bytes[2..4].copy_from_slice(&stamp.time_word().to_le_bytes());
    Rec52::of(bytes)
}

// A line to a new console for which so many records fell due, the first at 00:05 of 2024-07-01.
fn console(alloc: Global, records: u16) -> Option<Sim> {
    let period = Period::from_minutes(MINUTES)?;
    let eeprom = Eeprom::new(alloc, period).ok()?;
    let console = Console::new(alloc, eeprom, LoopPacket::blank()).ok()?;
    let mut sim = Sim::new(alloc, console).ok()?;
    let mut stamp = Stamp::from_words(DAY, MINUTES)?;
    for _ in 0..records {
        sim.due(record(stamp)?);
        stamp = stamp.after(period)?;
    }
    Some(sim)
}

// What befalls the line, as a schedule says it of a round.
fn fates(alloc: Global, lines: &str) -> Option<Fates> {
    let mut text = String::from_str(alloc, "round\n").ok()?;
    text.push_str(lines).ok()?;
    let period = Period::from_minutes(MINUTES)?;
    let schedule = Schedule::read(alloc, text.as_bytes(), period).ok()?;
    match schedule.steps() {
        [Step::Round { fates, .. }] => fates.copy().ok(),
        _ => None,
    }
}

// A line to a console, and the disk of an archive.
type Places = (Sim, MemDisk);

// The words end so where this befalls the line to a console, and this is written. The line and the disk are given back.
fn expect(
    rt: &impl Abort,
    alloc: Global,
    (mut sim, disk): Places,
    words: &[&str],
    lines: &str,
    (status, text): (u8, &str),
) -> Result<Places, Fail> {
    sim.start(fates(alloc, lines).ok_or("no fates")?);
    let files = [("settings", b"".as_slice())];
    let given = Given {
        files: &files,
        ..plain(words)
    };
    let mut ended = done(rt, alloc, &given, sim, disk, holding(rt, alloc, &[])?)?;
    assert_eq!(rt;
        (ended.status, ended.text.as_slice()),
        (status, text.as_bytes()),
        "{words:?}, {lines}"
    );
    ended.link.finish();
    Ok((ended.link, ended.disk))
}

#[test]
fn a_modelled_console_does_each_task(rt: HostRuntime) -> Result<(), Fail> {
    let alloc = rt.alloc();
    let mut places = (
        console(alloc, 0).ok_or("no console")?,
        holding(&rt, alloc, &[])?,
    );
    let set = ["task", "a", "time", "set", "2024-07-01", "12:34:56"];
    let write_five = ["task", "a", "eeprom", "write", "2D", "05"];
    let write_ten = ["task", "a", "eeprom", "write", "2D", "0A"];
    let packet = "loop barometer 0 inTemp 0 outTemp 0 wind 0 dir 0\n";
    let differs = "task differs at 45 sent 10 read 5\n";
    let rows: [(&[&str], &str, u8, &str); 9] = [
        (&["task", "a", "kind"], "", 0, "kind 16\n"),
        (&["task", "a", "time"], "", 0, "time 2024-01-01 00:00:00\n"),
        (&set, "", 0, "time set\n"),
        (&["task", "a", "time"], "", 0, "time 2024-07-01 12:34:56\n"),
        (&["task", "a", "period", "10"], "", 0, "period 10\n"),
        (&["task", "a", "eeprom", "read", "2d", "1"], "", 0, "0a\n"),
        (&write_five, "", 0, "written 1\n"),
        (&["task", "a", "loop", "1"], "", 0, packet),
        // 0A becomes 05 on its way, with the check behind it.
        (&write_ten, "host 3 flip 0 0FF1EF", 4, differs),
    ];
    for (words, lines, status, text) in rows {
        places = expect(&rt, alloc, places, words, lines, (status, text))?;
    }
    Ok(())
}

const FIVE: &str = "round ok attempts 1 pages 1 skipped 0 acked 5 rows 5\n";

const TEN: &str = "round ok attempts 1 pages 2 skipped 0 acked 10 rows 10\n";

const FIFTEEN: &str = "round ok attempts 1 pages 3 skipped 0 acked 15 rows 15\n";

// What befalls a line to a console with so many records, and the status and the lines of the round.
const ROUNDS: [(u16, &str, u8, &str); 11] = [
    (10, "", 0, TEN),
    (5, "host 5 lost", 0, FIVE),
    (10, "reply 4 lost", 0, TEN),
    (10, "reply 4 drop 10 20", 0, TEN),
    (10, "reply 4 late 2 200", 0, TEN),
    (15, "reply 5 cut 266", 0, FIFTEEN),
    (15, "host 6 flip 0 13", 0, FIFTEEN),
    // Page 1 comes in place of page 0.
    (
        10,
        "reply 4 lost\nhost 5 flip 0 13",
        0,
        "attempt 1 page 0 ahead 1\nround ok attempts 2 pages 2 skipped 0 acked 10 rows 10\n",
    ),
    // Each attempt says three line feeds.
    (
        5,
        "reply 1 lost\nreply 2 lost\nreply 3 lost\nreply 4 lost\nreply 5 lost\nreply 6 lost\n\
         reply 7 lost\nreply 8 lost\n",
        0,
        "attempt 1 asleep\nattempt 2 asleep\nround ok attempts 3 pages 1 skipped 0 acked 5 rows 5\n",
    ),
    (
        5,
        "reply 1 lost\nreply 2 lost\nreply 3 lost\nreply 4 lost\nreply 5 lost\nreply 6 lost\n\
         reply 7 lost\nreply 8 lost\nreply 9 lost\n",
        4,
        "attempt 1 asleep\nattempt 2 asleep\nattempt 3 asleep\n\
         round gaveup attempts 3 pages 0 skipped 0 acked 0 rows 0\ngave up\n",
    ),
    // A ring that ran over gives what it has.
    (
        2_563,
        "",
        0,
        "round ok attempts 1 pages 513 skipped 0 acked 2560 rows 2560\n",
    ),
];

#[test]
fn a_round_heals_a_modelled_line_or_gives_up(rt: HostRuntime) -> Result<(), Fail> {
    let alloc = rt.alloc();
    for (records, lines, status, text) in ROUNDS {
        let sim = console(alloc, records).ok_or("no console")?;
        let disk = MemDisk::new(alloc, LONGEST, CHANGES, LONGEST)?;
        expect(&rt, alloc, (sim, disk), &STATION, lines, (status, text))?;
    }
    Ok(())
}

#[test]
fn a_record_of_a_dump_comes_with_the_next(rt: HostRuntime) -> Result<(), Fail> {
    let alloc = rt.alloc();
    let mut places = (
        console(alloc, 5).ok_or("no console")?,
        holding(&rt, alloc, &[])?,
    );
    let six = "round ok attempts 1 pages 1 skipped 0 acked 6 rows 6\n";
    for (lines, text) in [("host 5 lost\nmid 4 2024-07-01 00:30", FIVE), ("", six)] {
        places = expect(&rt, alloc, places, &STATION, lines, (0, text))?;
    }
    Ok(())
}

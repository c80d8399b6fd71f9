use crate::running::{Given, done, holding, over, plain};
use crate::scripts::{items_of, line};
use disk_model::Disk;
use serial_link::{ScriptItem, ScriptLink};
use std::alloc::Global;
use std::process::Abort;
use std::test::Fail;

// Two rounds, with a pause of one wait between them.
const TWO: [&str; 6] = ["stay", "settings", "archive", "console", "2", "1"];

// One round more than may give up in a row. Nothing passes between them.
const MANY: [&str; 6] = ["stay", "settings", "archive", "console", "13", "0"];

// Settings without a key.
const EMPTY: [(&str, &[u8]); 1] = [("settings", b"")];

// A console that is awake sends one page of five records, and after a byte and a wait the next one.
const SCRIPT: &str = "q6 w q3 a h1 p0abcde l q1 q6 w q3 a h1 p0fghij";

// The lines of that, as they are written.
const LINES: [&str; 3] = [
    "round ok attempts 1 pages 1 skipped 0 acked 5 rows 5\n",
    "round ok attempts 1 pages 1 skipped 0 acked 10 rows 10\n",
    "stayed 2\n",
];

// The changes that make an archive, and those of a batch.
const MAKING: u64 = 3;

const ADDING: u64 = 4;

// All lines of the two rounds.
fn both(alloc: Global) -> Result<String, Fail> {
    let mut text = String::new(alloc);
    for line in LINES {
        text.push_str(line)?;
    }
    Ok(text)
}

#[test]
fn a_sink_that_ends_within_a_round_ends_the_run(rt: HostRuntime) -> Result<(), Fail> {
    let alloc = rt.alloc();
    let lines = both(alloc)?;
    for capacity in 0..lines.len() {
        let given = Given {
            files: &EMPTY,
            capacity,
            ..plain(&TWO)
        };
        let ended = over(&rt, alloc, &given, line(alloc, SCRIPT)?)?;
        assert_eq!(rt; ended.status, 9, "at {capacity}");
        assert!(rt; lines.as_bytes().starts_with(&ended.text), "at {capacity}");
        // The rows of a round are kept though its lines are not, and no other round is made.
        let rounds = if capacity < LINES[0].len() { 1 } else { 2 };
        assert_eq!(rt;
            ended.disk.moment(),
            MAKING + ADDING * rounds,
            "at {capacity}"
        );
    }
    Ok(())
}

// The lines that are whole in front of the last two are those of the rounds, and there are as many of these as `stayed`
// counts.
fn check_front(rt: &impl Abort, text: &[u8], fault: &[u8]) -> Result<(), Fail> {
    let front = text.strip_suffix(fault).ok_or("no line of the fault")?;
    let mut rounds: u8 = 0;
    let mut last = b"".as_slice();
    for line in front.split(|byte| *byte == b'\n') {
        if line.starts_with(b"round ") {
            rounds = rounds.wrapping_add(1);
        }
        if !line.is_empty() {
            last = line;
        }
    }
    let want: &[u8] = match rounds {
        0 => b"stayed 0",
        1 => b"stayed 1",
        _ => b"stayed 2",
    };
    assert_eq!(rt; last, want);
    Ok(())
}

#[test]
fn each_receive_that_fails_ends_the_run_with_its_rounds_counted(
    rt: HostRuntime,
) -> Result<(), Fail> {
    let alloc = rt.alloc();
    let items = items_of(alloc, SCRIPT)?.len();
    let given = Given {
        files: &EMPTY,
        ..plain(&TWO)
    };
    for at in 0..items {
        let mut items = items_of(alloc, SCRIPT)?;
        assert!(rt; at <= items.len());
        items.insert(at, ScriptItem::Fail)?;
        let link = ScriptLink::new(alloc, items)?;
        let ended = over(&rt, alloc, &given, link)?;
        assert_eq!(rt; ended.status, 6, "at {at}");
        check_front(&rt, &ended.text, b"link fault\n")?;
    }
    Ok(())
}

#[test]
fn each_call_of_the_disk_that_fails_ends_the_run(rt: HostRuntime) -> Result<(), Fail> {
    let alloc = rt.alloc();
    let given = Given {
        files: &EMPTY,
        ..plain(&TWO)
    };
    for call in 1..100 {
        let mut disk = holding(&rt, alloc, &[])?;
        let second = holding(&rt, alloc, &[])?;
        assert!(rt; call >= 1);
        disk.fail_at(call);
        let ended = done(&rt, alloc, &given, line(alloc, SCRIPT)?, disk, second)?;
        if ended.status == 0 {
            assert_eq!(rt; ended.text.as_slice(), both(alloc)?.as_bytes());
            // The attach, three changes that make the archive, and four for each page at least.
            assert!(rt; call > 12);
            return Ok(());
        }
        assert_eq!(rt; ended.status, 7, "call {call}");
        if ended.text.as_slice() != b"disk fault\n".as_slice() {
            check_front(&rt, &ended.text, b"disk fault\n")?;
        }
    }
    Err("always a disk fault")?
}

// The items of so many rounds for which the console does not wake.
fn asleep(items: &mut Vec<ScriptItem>, alloc: Global, rounds: u32) -> Result<(), Fail> {
    for _ in 0..rounds {
        for item in items_of(alloc, "q45")? {
            items.push(item)?;
        }
    }
    Ok(())
}

// Each row has how many rounds find the console asleep, then awake and without a new row, and then asleep again, and how
// the stay ends.
#[test]
fn rounds_in_a_row_that_give_up_end_the_run(rt: HostRuntime) -> Result<(), Fail> {
    let alloc = rt.alloc();
    let rows = [
        (13, 0, 0, 4, "stayed 12\ngave up\n"),
        (11, 1, 1, 0, "stayed 13\n"),
        (0, 1, 12, 4, "stayed 13\ngave up\n"),
        (1, 1, 11, 0, "stayed 13\n"),
    ];
    for (before, awake, after, status, last) in rows {
        let mut items = Vec::new(alloc);
        asleep(&mut items, alloc, before)?;
        for _ in 0..awake {
            for item in items_of(alloc, "q6 w q3 a h0")? {
                items.push(item)?;
            }
        }
        asleep(&mut items, alloc, after)?;
        let given = Given {
            files: &EMPTY,
            ..plain(&MANY)
        };
        let ended = over(&rt, alloc, &given, ScriptLink::new(alloc, items)?)?;
        assert_eq!(rt; ended.status, status, "{before} {awake} {after}");
        assert!(rt;
            ended.text.ends_with(last.as_bytes()),
            "{before} {awake} {after}"
        );
    }
    Ok(())
}

// A line that never stays quiet ends a pause as it has been heard so often, and the next round is made.
#[test]
fn a_line_that_talks_ends_a_pause(rt: HostRuntime) -> Result<(), Fail> {
    let alloc = rt.alloc();
    let words = ["stay", "settings", "archive", "console", "2", "1000000"];
    let mut items = items_of(alloc, "q6 w q3 a h0")?;
    for _ in 0..65_536 {
        items.push(ScriptItem::Quiet)?;
        items.push(ScriptItem::Bytes(b'x'))?;
    }
    for item in items_of(alloc, "q6 w q3 a h0")? {
        items.push(item)?;
    }
    let given = Given {
        files: &EMPTY,
        ..plain(&words)
    };
    let ended = over(&rt, alloc, &given, ScriptLink::new(alloc, items)?)?;
    assert_eq!(rt; ended.status, 0);
    assert!(rt; ended.text.ends_with(b"stayed 2\n"));
    Ok(())
}

use crate::archives::{
    DAYS, LINE, MANY, MONTHS, READ, TWO_LINES, archive, long_archive, long_lines,
};
use crate::running::{Given, done, holding, plain};
use crate::scripts::line;
use disk_model::{Disk, Stopping};
use std::alloc::Global;
use std::process::Abort;
use std::test::Fail;

const COPY: [&str; 3] = ["copy", "old", "new"];

const IMPORT: [&str; 3] = ["import", "rows", "archive"];

// The words that report the rows of the archives here.
const REPORT: [&str; 5] = ["report", "a", "rows", "2024-07-01", "2024-07-01"];

// What a round prints in front of the line of a disk fault, but for how many rows there are.
const ROUND: &[u8] = b"round disk attempts 1 pages 1 skipped 0 acked 0 rows ";

// A command that is done again and again, while each call of one of its disks fails in turn.
#[derive(Clone, Copy)]
struct Trial<'a> {
    words: &'a [&'a str],
    script: &'a str,
    old: &'a [u8],
    is_of_second: bool,
    // What is written if none fails.
    lines: &'a str,
    // The most bytes of these lines that are written in front of a fault.
    most: usize,
    // How many calls are made at least.
    calls: u64,
}

// How many bytes of the lines stand in front of `disk fault` if this call of the disk fails, each line whole. None if there
// is no such call, and all lines are written.
fn cut_at(rt: &impl Abort, alloc: Global, trial: &Trial, call: u64) -> Result<Option<usize>, Fail> {
    let mut disk = holding(rt, alloc, trial.old)?;
    let mut second = holding(rt, alloc, &[])?;
    assert!(rt; call >= 1);
    if trial.is_of_second {
        second.fail_at(call);
    } else {
        disk.fail_at(call);
    }
    let files = [("settings", b"".as_slice()), ("rows", TWO_LINES)];
    let given = Given {
        files: &files,
        ..plain(trial.words)
    };
    let link = line(alloc, trial.script)?;
    let ended = done(rt, alloc, &given, link, disk, second)?;
    if ended.status == 0 {
        assert_eq!(rt; ended.text.as_slice(), trial.lines.as_bytes());
        return Ok(None);
    }
    assert_eq!(rt; ended.status, 7, "{:?}, call {call}", trial.words);
    let front = ended.text.strip_suffix(b"disk fault\n").ok_or("no line")?;
    assert!(rt;
        front.is_empty() || front.ends_with(b"\n"),
        "{:?}, call {call}",
        trial.words
    );
    if front.starts_with(ROUND) {
        return Ok(Some(0));
    }
    assert!(rt;
        trial.lines.as_bytes().starts_with(front),
        "{:?}, call {call}",
        trial.words
    );
    Ok(Some(front.len()))
}

// Has each call fail in turn, up to one that is not made.
fn cut(rt: &impl Abort, alloc: Global, trial: &Trial) -> Result<(), Fail> {
    let mut most = 0;
    for call in 1..200 {
        let Some(front) = cut_at(rt, alloc, trial, call)? else {
            assert_eq!(rt; most, trial.most, "{:?}", trial.words);
            assert!(rt; call > trial.calls, "{:?}", trial.words);
            return Ok(());
        };
        assert!(rt; most <= front, "{:?}, call {call}", trial.words);
        most = front;
    }
    Err("always a disk fault")?
}

#[test]
fn each_call_that_fails_leaves_whole_lines_and_a_disk_fault(rt: HostRuntime) -> Result<(), Fail> {
    let alloc = rt.alloc();
    let days = ["report", "a", "days", "2024-07-01", "2024-07-01"];
    let months = ["report", "a", "months", "2024-07-01", "2024-07-01"];
    let station = ["station", "settings", "archive", "console"];
    let five = "q6 w q3 a h1 p0abcde";
    let round = "round ok attempts 1 pages 1 skipped 0 acked 5 rows 5\n";
    let (two, many) = (archive(), long_archive());
    let lines = long_lines(alloc)?;
    let rows: [(&[&str], &str, &[u8], bool, &str, usize, u64); 7] = [
        // An attach and a read at least.
        (&days, "", &two, false, DAYS, 0, 2),
        (&months, "", &two, false, MONTHS, 0, 2),
        // The last read is that of the last 8 rows.
        (&REPORT, "", &many, false, &lines, 2 * READ * LINE, 4),
        (&COPY, "", &many, false, "copied 40\n", 0, 4),
        // An attach, three changes that make the file, and four of each of eight batches at least.
        (&COPY, "", &many, true, "copied 40\n", 0, 36),
        (
            &IMPORT,
            "",
            &[],
            false,
            "imported 2 passed 0 rows 2\n",
            0,
            8,
        ),
        (&station, five, &[], false, round, 0, 8),
    ];
    for (words, script, old, is_of_second, lines, most, calls) in rows {
        let trial = Trial {
            words,
            script,
            old,
            is_of_second,
            lines,
            most,
            calls,
        };
        cut(&rt, alloc, &trial)?;
    }
    Ok(())
}

// A copy over these disks ends so and writes this. They are given back.
fn copied<D: Disk + Drop>(
    rt: &impl Abort,
    alloc: Global,
    (disk, second): (D, D),
    status: u8,
    text: &str,
) -> Result<(D, D), Fail> {
    let ended = done(rt, alloc, &plain(&COPY), line(alloc, "")?, disk, second)?;
    assert_eq!(rt;
        (ended.status, ended.text.as_slice()),
        (status, text.as_bytes())
    );
    Ok((ended.disk, ended.second))
}

#[test]
fn a_copy_makes_just_the_changes_of_its_batches(rt: HostRuntime) -> Result<(), Fail> {
    let alloc = rt.alloc();
    let old = holding(&rt, alloc, &long_archive())?;
    let new = holding(&rt, alloc, &[])?;
    let (old, new) = copied(&rt, alloc, (old, new), 0, "copied 40\n")?;
    // Three changes make the file, and four add each batch of five rows; a second copy makes one.
    let first = 3 + 4 * u64::from(MANY) / 5;
    assert_eq!(rt; new.moment(), first);
    let (_, new) = copied(&rt, alloc, (old, new), 0, "copied 40\n")?;
    assert_eq!(rt; new.moment(), first + 1);
    Ok(())
}

#[test]
fn a_copy_that_was_stopped_goes_on(rt: HostRuntime) -> Result<(), Fail> {
    let alloc = rt.alloc();
    let old = Stopping::new(holding(&rt, alloc, &long_archive())?);
    let mut new = Stopping::new(holding(&rt, alloc, &[])?);
    assert!(rt; !new.stopped());
    // Change 12 is the first of the third batch.
    new.arm(12, 1);
    let (old, mut new) = copied(&rt, alloc, (old, new), 7, "disk fault\n")?;
    assert!(rt; new.stopped());
    new.restart();
    let reported = done(&rt, alloc, &plain(&REPORT), line(alloc, "")?, new, old)?;
    assert_eq!(rt; reported.text.len(), 10 * LINE);
    let disks = (reported.second, reported.disk);
    copied(&rt, alloc, disks, 0, "copied 40\n")?;
    Ok(())
}

use crate::archives::{DAYS, MONTHS, TWO_LINES, archive, long_archive, long_lines};
use crate::running::{Given, done, holding, over, plain};
use crate::scripts::{line, said};
use std::alloc::Global;
use std::process::Abort;
use std::test::Fail;
use value_tests::page_of_letters;

// A text of at most so many bytes is cut at each of them, and a longer one at the end of each line.
const SHORT: usize = 30;

// What is written of one made record and two rounds that have all there is.
const MADE: &str = "made 1 records 2 rounds
ok 2 gaveup 0 full 0 stop 0
harmed 0
rows 1 days 1
";

const SCHEDULE: &[u8] =
    b"due 2024-07-01 00:05 outTemp=650\ndue 2024-07-01 00:10 outTemp=671\nround\n";

// What is written of the replay of that, in front of the lines of its day.
const REPLAYED: &str = "open rows 0
round 1 ok attempts 1 pages 1 skipped 0 harmed 0 acked 2 rows 2
row 2024-07-01 00:05 5 outTemp=650 rain=0 highRainRate=0 windSamples=0 windGust=0 ET=0
row 2024-07-01 00:10 5 outTemp=671 rain=0 highRainRate=0 windSamples=0 windGust=0 ET=0
";

// A sink that ends before the end of a line, whichever, takes a front of the lines. The line plays a script, and the
// archive has these bytes.
fn fill(
    rt: &impl Abort,
    alloc: Global,
    given: &Given,
    script: &str,
    bytes: &[u8],
    lines: &str,
) -> Result<(), Fail> {
    for (capacity, byte) in lines.as_bytes().iter().enumerate() {
        if *byte != b'\n' && lines.len() > SHORT {
            continue;
        }
        let given = Given { capacity, ..*given };
        let disk = holding(rt, alloc, bytes)?;
        let second = holding(rt, alloc, &[])?;
        let ended = done(rt, alloc, &given, line(alloc, script)?, disk, second)?;
        assert_eq!(rt; ended.status, 9, "{:?}, at {capacity}", given.words);
        assert!(rt;
            lines.as_bytes().starts_with(&ended.text),
            "{:?}, at {capacity}",
            given.words
        );
    }
    Ok(())
}

#[test]
fn a_sink_that_ends_within_a_line_takes_a_front(rt: HostRuntime) -> Result<(), Fail> {
    let alloc = rt.alloc();
    let mut replayed = String::from_str(alloc, REPLAYED)?;
    replayed.push_str(DAYS)?;
    replayed.push_str("end rows 2 days 1\n")?;
    let listed = long_lines(alloc)?;
    let (dump, two, many) = (page_of_letters(0, b"a"), archive(), long_archive());
    let files = [
        ("dump", dump.as_slice()),
        ("settings", b"".as_slice()),
        ("schedule", SCHEDULE),
        ("rows", TWO_LINES),
    ];
    let days = ["report", "a", "days", "2024-07-01", "2024-07-01"];
    let months = ["report", "a", "months", "2024-07-01", "2024-07-01"];
    let report = ["report", "a", "rows", "2024-07-01", "2024-07-01"];
    let rows: [(&[&str], &str, &[u8], &str); 8] = [
        (&["make", "1", "1"], "", &[], MADE),
        (&["task", "a", "kind"], "q15", &[], "task asleep\n"),
        (&["pages", "dump"], "", &[], "2024-07-01 00:01 -1\n"),
        (&["replay", "settings", "schedule"], "", &[], &replayed),
        (&days, "", &two, DAYS),
        (&months, "", &two, MONTHS),
        (&report, "", &many, &listed),
        (
            &["import", "rows", "a"],
            "",
            &[],
            "imported 2 passed 0 rows 2\n",
        ),
    ];
    for (words, script, bytes, lines) in rows {
        let given = Given {
            files: &files,
            ..plain(words)
        };
        fill(&rt, alloc, &given, script, bytes, lines)?;
    }
    Ok(())
}

#[test]
fn a_sink_may_end_within_the_line_of_a_disk_fault(rt: HostRuntime) -> Result<(), Fail> {
    let alloc = rt.alloc();
    let mut disk = holding(&rt, alloc, &archive())?;
    let second = holding(&rt, alloc, &[])?;
    disk.fail_at(1);
    let words = ["report", "a", "days", "2024-07-01", "2024-07-01"];
    let given = Given {
        capacity: 10,
        ..plain(&words)
    };
    let ended = done(&rt, alloc, &given, line(alloc, "")?, disk, second)?;
    assert_eq!(rt; ended.status, 9);
    assert!(rt; "disk fault\n".as_bytes().starts_with(&ended.text));
    Ok(())
}

#[test]
fn what_was_served_was_said_though_its_line_cannot_be_written(rt: HostRuntime) -> Result<(), Fail> {
    let alloc = rt.alloc();
    let words = ["console", "settings", "schedule", "here", "2"];
    let files = [("settings", b"".as_slice()), ("schedule", b"".as_slice())];
    let given = Given {
        files: &files,
        capacity: 10,
        ..plain(&words)
    };
    let ended = over(&rt, alloc, &given, line(alloc, "l q1")?)?;
    assert_eq!(rt; (ended.status, ended.text.as_slice()), (9, b"".as_slice()));
    assert_eq!(rt;
        said(alloc, ended.link.talk())?.as_slice(),
        b"\n\r".as_slice()
    );
    Ok(())
}

use crate::running::{Ended, Given, over, plain};
use crate::scripts::{items_of, line, said};
use disk_model::MemDisk;
use serial_link::{ScriptItem, ScriptLink};
use std::alloc::Global;
use std::process::Abort;
use std::test::Fail;
use vantage_frames::PAGE_SIZE;

const STATION: [&str; 4] = ["station", "settings", "archive", "console"];

// A console that is awake sends one page of five records.
const FIVE: &str = "q6 w q3 a h1 p0abcde";

// The items of that: six waits, LF CR, three waits, 0x06, the answer of seven bytes and the page.
const GOOD: usize = 6 + 2 + 3 + 1 + 7 + PAGE_SIZE;

// The link failed before a page was taken.
const LINK: &str = "round link attempts 1 pages 0 skipped 0 acked 0 rows 0\nlink fault\n";

// It failed at the last message, behind the page.
const LATE: &str = "round link attempts 1 pages 1 skipped 0 acked 5 rows 5\nlink fault\n";

// Settings without a key, and a schedule without a line.
const EMPTY: [(&str, &[u8]); 2] = [("settings", b""), ("schedule", b"")];

// How the words end over a link under settings without a key, with an empty schedule and an empty archive.
fn plainly(
    rt: &impl Abort,
    alloc: Global,
    words: &[&str],
    link: ScriptLink,
) -> Result<Ended<ScriptLink, MemDisk>, Fail> {
    let given = Given {
        files: &EMPTY,
        ..plain(words)
    };
    over(rt, alloc, &given, link)
}

// The link over which a good round is heard, where this item stands before the one of that number.
fn interrupted(
    rt: &impl Abort,
    alloc: Global,
    item: ScriptItem,
    at: usize,
) -> Result<ScriptLink, Fail> {
    let mut items = items_of(alloc, FIVE)?;
    assert!(rt; at <= items.len());
    items.insert(at, item)?;
    Ok(ScriptLink::new(alloc, items)?)
}

#[test]
fn each_receive_that_fails_ends_the_round(rt: HostRuntime) -> Result<(), Fail> {
    let alloc = rt.alloc();
    for at in 0..GOOD {
        let link = interrupted(&rt, alloc, ScriptItem::Fail, at)?;
        let ended = plainly(&rt, alloc, &STATION, link)?;
        assert_eq!(rt;
            (ended.status, ended.text.as_slice()),
            (6, LINK.as_bytes()),
            "at {at}"
        );
    }
    Ok(())
}

// A round ends so where the message before the item of that number is not sent.
fn ends_unsent(rt: &impl Abort, alloc: Global, at: usize, want: &str) -> Result<(), Fail> {
    let link = interrupted(rt, alloc, ScriptItem::SendFails, at)?;
    let ended = plainly(rt, alloc, &STATION, link)?;
    assert_eq!(rt;
        (ended.status, ended.text.as_slice()),
        (6, want.as_bytes()),
        "at {at}"
    );
    Ok(())
}

#[test]
fn each_message_that_is_not_sent_ends_the_round(rt: HostRuntime) -> Result<(), Fail> {
    let alloc = rt.alloc();
    // LF, DMPAFT, the stamp frame, and 0x06 for the page.
    for at in [6, 11, 12, 19] {
        ends_unsent(&rt, alloc, at, LINK)?;
    }
    // The last 0x06.
    ends_unsent(&rt, alloc, GOOD, LATE)
}

#[test]
fn a_line_that_is_not_made_or_answered_is_a_link_fault(rt: HostRuntime) -> Result<(), Fail> {
    let alloc = rt.alloc();
    let task = ["task", "console", "kind"];
    let serving = ["console", "settings", "schedule", "here", "1"];
    // The words, the script, and what is said.
    let rows: [(&[&str], &str, &[u8]); 4] = [
        (&STATION, "s", b""),
        (&task, "s", b""),
        (&serving, "s", b""),
        (&serving, "l s", b""),
    ];
    for (words, script, want) in rows {
        let ended = plainly(&rt, alloc, words, line(alloc, script)?)?;
        assert_eq!(rt;
            (ended.status, ended.text.as_slice()),
            (6, b"link fault\n".as_slice()),
            "{words:?}, {script}"
        );
        assert_eq!(rt;
            said(alloc, ended.link.talk())?.as_slice(),
            want,
            "{words:?}"
        );
    }
    Ok(())
}

// Consoles that take the station longer than a run over a real line is to take, each with the status and the lines of its
// round.
const LONG: [(&str, u8, &str); 3] = [
    (
        "q6 w q3 a h514 q6 w q3 a h514 q6 w q3 a h514",
        4,
        "attempt 1 bad header numbers 514 0\nattempt 2 bad header numbers 514 0\n\
         attempt 3 bad header numbers 514 0\n\
         round gaveup attempts 3 pages 0 skipped 0 acked 0 rows 0\ngave up\n",
    ),
    (
        "q6 w q3 a h1 x0abcde q6 x0abcde q6 x0abcde q6 x0abcde q6 w q3 a h1 p0abcde",
        0,
        "attempt 1 page 0 lost\nround ok attempts 2 pages 1 skipped 0 acked 5 rows 5\n",
    ),
    (
        "q6 q9 q6 q9 q6 q9",
        4,
        "attempt 1 asleep\nattempt 2 asleep\nattempt 3 asleep\n\
         round gaveup attempts 3 pages 0 skipped 0 acked 0 rows 0\ngave up\n",
    ),
];

#[test]
fn a_console_may_fail_each_attempt_or_the_first(rt: HostRuntime) -> Result<(), Fail> {
    let alloc = rt.alloc();
    for (script, status, text) in LONG {
        let ended = plainly(&rt, alloc, &STATION, line(alloc, script)?)?;
        assert_eq!(rt;
            (ended.status, ended.text.as_slice()),
            (status, text.as_bytes()),
            "{script}"
        );
    }
    Ok(())
}

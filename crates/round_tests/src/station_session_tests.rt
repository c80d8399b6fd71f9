use disk_model::{Disk, MemDisk};
use dmpaft_pump::Trouble;
use serial_link::{ScriptItem, ScriptLink};
use settings_file::Settings;
use station_session::{Mark, Report, RoundEnd, Session};
use std::alloc::Global;
use std::process::Abort;
use std::test::Fail;
use value_tests::page_of_letters;
use vantage_frames::write_header;
use weather_book::{Book, BookStart, Purpose};

const MOST: u32 = 1_048_576;

// So many bytes without a quiet wait end a settling.
const FLOOD: u32 = 65_536;

// A console that is awake sends two pages of five records each.
const TWO_PAGES: &str = "q6 w q3 a h2 p0abcde p1fghij";

// A page is lost in the first attempt, and taken by the second.
const AGAIN: &str =
    "q6 w q3 a h2 p0abcde x1fghij q6 x1fghij q6 x1fghij q6 x1fghij q6 w q3 a h1 p0fghij";

// Three attempts fail, each in its own way.
const THREE_TROUBLES: &str =
    "q6 q9 q6 w q3 q3 q6 w q3 a h1 x0abcde q6 x0abcde q6 x0abcde q6 x0abcde";

// The console has no page.
const NOTHING_NEW: &str = "q6 w q3 a h0";

fn add_bytes(items: &mut Vec<ScriptItem>, bytes: &[u8]) -> Result<(), Fail> {
    for byte in bytes {
        items.push(ScriptItem::Bytes(*byte))?;
    }
    Ok(())
}

// Adds what a word stands for: `q6` six quiet waits, `w` LF CR, `a` 0x06, `h2` the answer of two pages, `p0abcde` the page of
// sequence 0 with these records, `x0abcde` the same with a bad check, `f` the bytes of a settling that floods.
fn add_word(items: &mut Vec<ScriptItem>, word: &[u8]) -> Result<(), Fail> {
    match word {
        [b'q', count] => {
            for _ in 0..count.wrapping_sub(b'0') {
                items.push(ScriptItem::Quiet)?;
            }
            Ok(())
        }
        [b'h', pages] => {
            add_bytes(items, b"\x06")?;
            add_bytes(items, &write_header(u16::from(pages.wrapping_sub(b'0')), 0))
        }
        [b'w'] => add_bytes(items, b"\n\r"),
        [b'a'] => add_bytes(items, b"\x06"),
        [b'f'] => {
            for _ in 0..FLOOD {
                items.push(ScriptItem::Bytes(b'?'))?;
            }
            Ok(())
        }
        [kind, sequence, letters @ ..] => {
            let mut bytes = page_of_letters(sequence.wrapping_sub(b'0'), letters);
            if *kind == b'x' {
                bytes[100] ^= 1;
            }
            add_bytes(items, &bytes)
        }
        _ => Ok(()),
    }
}

// The line on which the words are heard.
fn line(alloc: Global, script: &str) -> Result<ScriptLink, Fail> {
    let mut items = Vec::new(alloc);
    for word in script.split(' ') {
        add_word(&mut items, word.as_bytes())?;
    }
    Ok(ScriptLink::new(alloc, items)?)
}

// The session of the archive on a disk, which may have so many rows.
fn open(rt: &impl Abort, alloc: Global, disk: &mut MemDisk, most: u32) -> Option<Session> {
    assert!(rt; most <= MOST && disk.moment() < 1_000);
    match Book::recover(alloc, disk, most, Purpose::Write) {
        BookStart::Book(book) => Some(Session::new(book, Settings::plain())),
        _ => None,
    }
}

// One round over what the words stand for.
fn round(
    rt: &impl Abort,
    alloc: Global,
    session: &mut Session,
    disk: &mut MemDisk,
    script: &str,
) -> Result<(RoundEnd, Report), Fail> {
    let mut link = line(alloc, script)?;
    let mut report = Report::new(alloc)?;
    assert!(rt; disk.moment() < 1_000);
    let end = session.round(&mut link, disk, &mut report);
    Ok((end, report))
}

// A round on a disk of its own.
#[derive(Clone, Copy)]
struct Case<'a> {
    // How many rows the archive may have.
    most: u32,
    // Which call of the disk fails.
    failing: u64,
    // What is heard.
    script: &'a str,
}

// More than the calls of any round here, so that none fails.
const NONE: u64 = 1_000;

// What a round came to.
#[derive(Drop)]
struct Outcome {
    end: RoundEnd,
    report: Report,
    // How the next round ends, in which the console has nothing new.
    next: RoundEnd,
    // How many rows are found on the disk then.
    found: Option<u64>,
}

fn ended(rt: &impl Abort, alloc: Global, case: Case) -> Result<Outcome, Fail> {
    let mut disk = MemDisk::new(alloc, 10_000, 50, 10_000)?;
    let mut session = open(rt, alloc, &mut disk, case.most).ok_or("no archive")?;
    assert!(rt; case.failing >= 1);
    disk.fail_at(case.failing);
    let (end, report) = round(rt, alloc, &mut session, &mut disk, case.script)?;
    let (next, _) = round(rt, alloc, &mut session, &mut disk, NOTHING_NEW)?;
    let found = open(rt, alloc, &mut disk, case.most).map(|session| session.book().len());
    Ok(Outcome {
        end,
        report,
        next,
        found,
    })
}

#[test]
fn a_round_ends_in_many_ways_and_the_next_goes_on(rt: HostRuntime) -> Result<(), Fail> {
    let rows = [
        (4, TWO_PAGES, RoundEnd::ArchiveFull, 1, 0),
        (7, TWO_PAGES, RoundEnd::ArchiveFull, 1, 5),
        (MOST, "q6 q9 q6 q9 q6 q9", RoundEnd::GaveUp, 3, 0),
        (MOST, AGAIN, RoundEnd::Done, 2, 10),
        (
            MOST,
            "q6 w q3 a h2 p0abcde x1fghij f",
            RoundEnd::Flood,
            1,
            5,
        ),
        (MOST, "q6 w q3 a h2 p0abcde", RoundEnd::LinkFault, 1, 5),
    ];
    for (most, script, end, attempts, kept) in rows {
        let case = Case {
            most,
            failing: NONE,
            script,
        };
        let outcome = ended(&rt, rt.alloc(), case)?;
        let report = &outcome.report;
        assert!(rt;
            (outcome.end, report.attempts, report.rows_after) == (end, attempts, kept),
            "at {script}"
        );
        assert!(rt;
            (report.acked(), report.marks.len() as u64) == (kept, kept / 5),
            "at {script}"
        );
        assert!(rt;
            (outcome.next, outcome.found) == (RoundEnd::Done, Some(kept)),
            "at {script}"
        );
    }
    Ok(())
}

#[test]
fn each_call_of_the_disk_that_fails_ends_the_round(rt: HostRuntime) -> Result<(), Fail> {
    use RoundEnd::{DiskFault, Done, Stale};
    // The call, the end of the round and of the next, the rows that are held, and those that are found.
    let rows = [
        (1, DiskFault, Stale, 0, Some(0)),
        (2, DiskFault, Stale, 0, Some(0)),
        (3, DiskFault, Stale, 0, Some(0)),
        (4, DiskFault, Stale, 0, Some(5)),
        (5, DiskFault, Stale, 5, Some(5)),
        (6, DiskFault, Stale, 5, Some(5)),
        (7, DiskFault, Stale, 5, Some(5)),
        (8, DiskFault, Stale, 5, Some(10)),
        // The round makes eight calls, so the ninth is the first of the recovery after it.
        (9, Done, Done, 10, None),
    ];
    for (failing, end, next, held, found) in rows {
        let case = Case {
            most: MOST,
            failing,
            script: TWO_PAGES,
        };
        let outcome = ended(&rt, rt.alloc(), case)?;
        assert!(rt;
            (outcome.end, outcome.next) == (end, next),
            "call {failing}"
        );
        assert!(rt;
            (outcome.report.rows_after, outcome.found) == (held, found),
            "call {failing}"
        );
    }
    Ok(())
}

#[test]
fn the_troubles_of_a_round_are_those_of_its_failed_attempts(rt: HostRuntime) -> Result<(), Fail> {
    let three = [
        Trouble::Asleep,
        Trouble::NoAck(None),
        Trouble::PageLost { page: 0 },
    ];
    let lost = [Trouble::PageLost { page: 1 }];
    let rows = [
        (THREE_TROUBLES, RoundEnd::GaveUp, three.as_slice()),
        (AGAIN, RoundEnd::Done, lost.as_slice()),
        (TWO_PAGES, RoundEnd::Done, [].as_slice()),
    ];
    for (script, end, troubles) in rows {
        let case = Case {
            most: MOST,
            failing: NONE,
            script,
        };
        let outcome = ended(&rt, rt.alloc(), case)?;
        assert!(rt; outcome.end == end, "at {script}");
        assert!(rt;
            outcome.report.troubles.as_slice() == troubles,
            "at {script}"
        );
    }
    Ok(())
}

#[test]
fn each_page_is_marked_as_its_rows_are_safe(rt: HostRuntime) -> Result<(), Fail> {
    let case = Case {
        most: MOST,
        failing: NONE,
        script: TWO_PAGES,
    };
    let outcome = ended(&rt, rt.alloc(), case)?;
    let marks = [
        Mark { moment: 7, rows: 5 },
        Mark {
            moment: 11,
            rows: 10,
        },
    ];
    let report = &outcome.report;
    assert!(rt; report.marks.as_slice() == marks.as_slice());
    assert_eq!(rt; report.tally.pages, 2);
    assert_eq!(rt; (report.rows_before, report.rows_after), (0, 10));
    Ok(())
}

use crate::Notes;
use arrayvec::ArrayVec;
use dmpaft_driver::{TrialEnd, dump, trial};
use dmpaft_pump::{DumpEnd, Kept, PumpEnd, Tally, Trouble};
use serial_link::{ScriptItem, ScriptLink, TalkItem};
use station_base::Stamp;
use std::alloc::Global;
use std::test::Fail;
use value_tests::page_of_letters;
use vantage_frames::{PAGE_SIZE, stamp_frame};

// The date word of 2024-07-01, the day of all records: `a` is that of 00:01, `b` that of 00:02, and so on.
const DAY: u16 = 12_513;

// The answer to a stamp frame.
fn header(pages: u16, place: u8) -> [u8; 7] {
    let mut answer = [6; 7];
    answer[1..].copy_from_slice(&vantage_frames::write_header(pages, u16::from(place)));
    answer
}

fn add_bytes(items: &mut Vec<ScriptItem>, bytes: &[u8]) -> Result<(), Fail> {
    add_front(items, bytes, bytes.len())
}

fn add_front(items: &mut Vec<ScriptItem>, bytes: &[u8], count: usize) -> Result<(), Fail> {
    for byte in bytes.iter().take(count) {
        items.push(ScriptItem::Bytes(*byte))?;
    }
    Ok(())
}

// Adds what a word stands for: `q6` six quiet waits, `w` LF CR, `a` 0x06, `n` 0x21, `h13` the answer of one page and
// place 3, `y13` the same with a bad check, `m13` with 0x21 first, `p0abcde` the page of sequence 0 with these slots,
// `x0abcde` the same with a bad check, `c0abcde` its first 266 bytes.
fn add_word(items: &mut Vec<ScriptItem>, word: &[u8]) -> Result<(), Fail> {
    match word {
        [b'q', count] => {
            for _ in 0..count.wrapping_sub(b'0') {
                items.push(ScriptItem::Quiet)?;
            }
            Ok(())
        }
        [b'w'] => add_bytes(items, b"\n\r"),
        [b'a'] => add_bytes(items, b"\x06"),
        [b'n'] => add_bytes(items, b"\x21"),
        [kind, pages, place] => {
            let mut answer = header(
                u16::from(pages.wrapping_sub(b'0')),
                place.wrapping_sub(b'0'),
            );
            match kind {
                b'y' => answer[6] ^= 1,
                b'm' => answer[0] = 0x21,
                _ => {}
            }
            add_bytes(items, &answer)
        }
        [kind, sequence, slots @ ..] => {
            let mut bytes = page_of_letters(sequence.wrapping_sub(b'0'), slots);
            match kind {
                b'c' => add_front(items, &bytes, PAGE_SIZE - 1),
                b'x' => {
                    bytes[100] ^= 1;
                    add_bytes(items, &bytes)
                }
                _ => add_bytes(items, &bytes),
            }
        }
        _ => Ok(()),
    }
}

// What an attempt came to.
#[derive(Drop)]
struct Outcome {
    end: DumpEnd,
    tally: Tally,
    kept: ArrayVec<u8, 32>,
    said: Vec<u8>,
}

fn add_words(items: &mut Vec<ScriptItem>, text: &str) -> Result<(), Fail> {
    for word in text.split(' ') {
        add_word(items, word.as_bytes())?;
    }
    Ok(())
}

// One attempt after a stamp, over what the words stand for, with a keeper that answers so.
fn attempt(alloc: Global, text: &str, after: Option<Stamp>, answer: Kept) -> Result<Outcome, Fail> {
    let mut items = Vec::new(alloc);
    add_words(&mut items, text)?;
    run(alloc, items, after, answer)
}

// One attempt after a stamp, of which the words stand for what comes after the stamp frame.
fn attempt_awake(
    alloc: Global,
    text: &str,
    after: Option<Stamp>,
    answer: Kept,
) -> Result<Outcome, Fail> {
    let mut items = Vec::new(alloc);
    add_words(&mut items, "q6 w q3 a")?;
    add_words(&mut items, text)?;
    run(alloc, items, after, answer)
}

fn run(
    alloc: Global,
    items: Vec<ScriptItem>,
    after: Option<Stamp>,
    answer: Kept,
) -> Result<Outcome, Fail> {
    let mut link = ScriptLink::new(alloc, items)?;
    let mut keeper = Notes {
        answer,
        kept: ArrayVec::new(),
        last: None,
        room: 513,
    };
    let mut tally = Tally {
        pages: 0,
        skipped: 0,
        last: None,
    };
    let end = dump(&mut link, after, &mut keeper, &mut tally);
    let mut said = Vec::new(alloc);
    for item in link.talk() {
        if let TalkItem::Said { byte, .. } = item {
            said.push(*byte)?;
        }
    }
    Ok(Outcome {
        end,
        tally,
        kept: keeper.kept,
        said,
    })
}

// The items, with a quiet wait behind each so many bytes that come one after another.
fn in_pieces(alloc: Global, items: &[ScriptItem], size: usize) -> Result<Vec<ScriptItem>, Fail> {
    let mut pieces = Vec::new(alloc);
    let mut left = size;
    for item in items {
        pieces.push(*item)?;
        left = match item {
            ScriptItem::Bytes(_) => left.saturating_sub(1),
            _ => size,
        };
        if left == 0 {
            pieces.push(ScriptItem::Quiet)?;
            left = size;
        }
    }
    Ok(pieces)
}

#[test]
fn answers_may_come_in_pieces_of_each_size(rt: HostRuntime) -> Result<(), Fail> {
    let script = "q6 w q3 a h20 p0abcde p1fghij";
    let whole = attempt(rt.alloc(), script, None, Kept::Done)?;
    assert_eq!(rt; whole.end, DumpEnd::Whole);
    let mut items = Vec::new(rt.alloc());
    add_words(&mut items, script)?;
    for size in 1..=PAGE_SIZE {
        let pieces = in_pieces(rt.alloc(), items.as_slice(), size)?;
        let outcome = run(rt.alloc(), pieces, None, Kept::Done)?;
        assert_eq!(rt; outcome.end, whole.end, "in pieces of {size}");
        assert!(rt; outcome.tally == whole.tally, "in pieces of {size}");
        assert!(rt;
            outcome.kept.as_slice() == whole.kept.as_slice(),
            "in pieces of {size}"
        );
        assert!(rt;
            outcome.said.as_slice() == whole.said.as_slice(),
            "in pieces of {size}"
        );
    }
    Ok(())
}

#[test]
fn an_attempt_may_end_before_the_header(rt: HostRuntime) -> Result<(), Fail> {
    let rows = [
        ("q6 q9", Trouble::Asleep, "\n\n\n\x1B"),
        ("q6 w q3 n", Trouble::NoAck(Some(0x21)), "\nDMPAFT\n\x1B"),
        ("q6 w q3 q3", Trouble::NoAck(None), "\nDMPAFT\n\x1B"),
    ];
    for (script, trouble, said) in rows {
        let outcome = attempt(rt.alloc(), script, None, Kept::Done)?;
        assert_eq!(rt; outcome.end, DumpEnd::Failed(trouble), "at {script}");
        assert!(rt; outcome.said.as_slice() == said.as_bytes(), "at {script}");
    }
    let outcome = attempt(rt.alloc(), "", None, Kept::Done)?;
    assert_eq!(rt; outcome.end, DumpEnd::LinkFault);
    assert_eq!(rt; outcome.said.len(), 0);
    Ok(())
}

#[test]
fn all_pages_are_taken_by_up_to_four_askings_each(rt: HostRuntime) -> Result<(), Fail> {
    let rows = [
        ("h00", "\0", 0, 0, ""),
        ("h10 p0abcde", "\0\x06\x06", 1, 0, "abcde"),
        ("h13 p0abcde", "\0\x06\x06", 1, 0, "de"),
        ("h10 c0abcde q9 p0abcde", "\0\x06\x15\x06", 1, 0, "abcde"),
        (
            "h10 x0abcde q6 x0abcde q6 p0abcde",
            "\0\x06\x15\x15\x06",
            1,
            0,
            "abcde",
        ),
        (
            "h20 p0abcde p0abcde q6 p1fghij",
            "\0\x06\x06\x06\x06",
            2,
            0,
            "abcdefghij",
        ),
        (
            "h20 p0abcde p0abcde q6 p0abcde q6 p1fghij",
            "\0\x06\x06\x06\x06\x06",
            2,
            0,
            "abcdefghij",
        ),
        ("h10 p0acbbd", "\0\x06\x06", 1, 0, "acd"),
        ("h20 p0abcde p1dfege", "\0\x06\x06\x06", 2, 0, "abcdefg"),
        ("h10 p0aRbBc", "\0\x06\x06", 1, 2, "abc"),
        ("h11 p0Ra--B", "\0\x06\x06", 1, 1, "a"),
    ];
    for (text, said, pages, skipped, kept) in rows {
        let outcome = attempt_awake(rt.alloc(), text, None, Kept::Done)?;
        assert_eq!(rt; outcome.end, DumpEnd::Whole, "at {text}");
        assert!(rt; outcome.said.ends_with(said.as_bytes()), "at {text}");
        assert_eq!(rt; outcome.tally.pages, pages, "at {text}");
        assert_eq!(rt; outcome.tally.skipped, skipped, "at {text}");
        assert!(rt; outcome.kept.as_slice() == kept.as_bytes(), "at {text}");
    }
    Ok(())
}

#[test]
fn an_attempt_fails_at_a_bad_header_or_page(rt: HostRuntime) -> Result<(), Fail> {
    let ahead = Trouble::PageAhead {
        page: 0,
        sequence: 1,
    };
    let numbers = Trouble::HeaderNumbers { pages: 1, place: 5 };
    let rows = [
        ("m10", Trouble::NoHeaderAck(0x21), "\0\x1B", ""),
        ("y10", Trouble::HeaderCheck, "\0\x1B", ""),
        ("h15", numbers, "\0\x1B", ""),
        ("h20 p1abcde", ahead, "\0\x06\x1B", ""),
        (
            "h10 x0ab q6 x0ab q6 x0ab q6 x0ab",
            Trouble::PageLost { page: 0 },
            "\0\x06\x15\x15\x15\x1B",
            "",
        ),
        (
            "h20 p0ab p0ab q6 p0ab q6 p0ab q6 p0ab",
            Trouble::PageLost { page: 1 },
            "\0\x06\x06\x06\x06\x06\x1B",
            "ab",
        ),
    ];
    for (text, trouble, said, kept) in rows {
        let outcome = attempt_awake(rt.alloc(), text, None, Kept::Done)?;
        assert_eq!(rt; outcome.end, DumpEnd::Failed(trouble), "at {text}");
        assert!(rt; outcome.said.ends_with(said.as_bytes()), "at {text}");
        assert!(rt; outcome.kept.as_slice() == kept.as_bytes(), "at {text}");
    }
    Ok(())
}

#[test]
fn a_header_may_be_cut_at_each_length(rt: HostRuntime) -> Result<(), Fail> {
    for length in 0..7_u8 {
        let mut items = Vec::new(rt.alloc());
        add_words(&mut items, "q6 w q3 a")?;
        add_front(&mut items, &header(1, 0), usize::from(length))?;
        add_words(&mut items, "q3")?;
        let outcome = run(rt.alloc(), items, None, Kept::Done)?;
        assert_eq!(rt; outcome.end, DumpEnd::Failed(Trouble::ShortHeader(length)));
        assert!(rt; outcome.said.ends_with(b"\0\x1B"));
    }
    Ok(())
}

#[test]
fn nothing_is_said_after_a_refusal(rt: HostRuntime) -> Result<(), Fail> {
    let rows = [
        ("h10 p0abcde", Kept::Full, DumpEnd::Full),
        ("h20 p0abcde p1fghij", Kept::Full, DumpEnd::Full),
        ("h20 p0abcde p1fghij", Kept::Stale, DumpEnd::Stale),
        ("h20 p0abcde p1fghij", Kept::DiskFault, DumpEnd::DiskFault),
    ];
    for (text, answer, end) in rows {
        let outcome = attempt_awake(rt.alloc(), text, None, answer)?;
        assert_eq!(rt; outcome.end, end, "at {text}");
        assert!(rt; outcome.said.ends_with(b"\0\x06"), "at {text}");
        assert_eq!(rt; outcome.tally.pages, 1);
        assert_eq!(rt; outcome.tally.last, None);
    }
    Ok(())
}

#[test]
fn records_up_to_the_stamp_asked_for_are_passed_over(rt: HostRuntime) -> Result<(), Fail> {
    let after = Stamp::from_words(DAY, 3);
    let outcome = attempt_awake(rt.alloc(), "h10 p0abcde", after, Kept::Done)?;
    assert_eq!(rt; outcome.end, DumpEnd::Whole);
    assert!(rt; outcome.kept.as_slice() == b"de".as_slice());
    assert_eq!(rt; outcome.tally.last, Stamp::from_words(DAY, 5));
    Ok(())
}

#[test]
fn a_dump_may_have_513_pages_and_begin_at_place_4(rt: HostRuntime) -> Result<(), Fail> {
    let mut items = Vec::new(rt.alloc());
    add_words(&mut items, "q6 w q3 a")?;
    add_bytes(&mut items, &header(513, 4))?;
    for k in 0..513_u16 {
        let slots: &[u8] = match k {
            0 => b"abcde",
            512 => b"f",
            _ => b"",
        };
        add_bytes(&mut items, &page_of_letters((k % 256) as u8, slots))?;
    }
    let outcome = run(rt.alloc(), items, None, Kept::Done)?;
    assert_eq!(rt; outcome.end, DumpEnd::Whole);
    assert_eq!(rt; outcome.tally.pages, 513);
    assert!(rt; outcome.kept.as_slice() == b"ef".as_slice());
    Ok(())
}

// No talk of these tests is longer.
const LONGEST: usize = 512;

// What a trial answers for all that there is, where the talk is not too long.
fn tried(talk: &[TalkItem]) -> Option<TrialEnd> {
    if talk.len() > LONGEST {
        return None;
    }
    Some(trial(None, talk))
}

// The answer that the item of this place does not fit.
fn not_at(place: usize) -> Option<TrialEnd> {
    u32::try_from(place).ok().map(TrialEnd::Not)
}

fn say(talk: &mut Vec<TalkItem>, bytes: &[u8]) -> Result<(), Fail> {
    for (i, byte) in bytes.iter().enumerate() {
        let ends = i + 1 == bytes.len();
        talk.push(TalkItem::Said { byte: *byte, ends })?;
    }
    Ok(())
}

// A talk with all that there is: `L` a line feed said, `D` DMPAFT, `S` the stamp frame, `A` 0x06, `N` 0x15, `E` 0x1B,
// and what is heard as in a script.
fn talk_of(alloc: Global, text: &str) -> Result<Vec<TalkItem>, Fail> {
    let mut talk = Vec::new(alloc);
    for word in text.split(' ') {
        match word.as_bytes() {
            b"L" => say(&mut talk, b"\n")?,
            b"D" => say(&mut talk, b"DMPAFT\n")?,
            b"S" => say(&mut talk, &stamp_frame(None))?,
            b"A" => say(&mut talk, b"\x06")?,
            b"N" => say(&mut talk, b"\x15")?,
            b"E" => say(&mut talk, b"\x1B")?,
            other => {
                let mut items = Vec::new(alloc);
                add_word(&mut items, other)?;
                hear(&mut talk, &items)?;
            }
        }
    }
    Ok(talk)
}

fn hear(talk: &mut Vec<TalkItem>, items: &[ScriptItem]) -> Result<(), Fail> {
    for item in items {
        match item {
            ScriptItem::Bytes(byte) => talk.push(TalkItem::Heard(*byte))?,
            _ => talk.push(TalkItem::Quiet)?,
        }
    }
    Ok(())
}

#[test]
fn a_trial_tells_an_attempt_from_its_front_and_from_what_is_none(
    rt: HostRuntime,
) -> Result<(), Fail> {
    let talk = talk_of(rt.alloc(), "q6 L w q3 D a S h10 A p0abcde A")?;
    assert_eq!(rt; tried(&talk), Some(TrialEnd::Attempt(PumpEnd::Whole)));
    let front = talk_of(rt.alloc(), "q6 L w q3 D a S h10 A p0abcde")?;
    assert_eq!(rt; tried(&front), Some(TrialEnd::Unfinished));
    let wrong = talk_of(rt.alloc(), "q6 L w q3 D a S h10 A p0abcde N")?;
    assert_eq!(rt; tried(&wrong), not_at(front.len()));
    let again = talk_of(rt.alloc(), "q6 L w q3 D a S h10 A q9 N q9 N q9 N q3")?;
    assert_eq!(rt; tried(&again), Some(TrialEnd::Unfinished));
    let settled = talk_of(rt.alloc(), "q6 L w q3 D a S h10 A q9 N q9 N q9 N q4")?;
    assert_eq!(rt; tried(&settled), not_at(again.len()));
    Ok(())
}

#[test]
fn each_trouble_has_a_shortest_talk(rt: HostRuntime) -> Result<(), Fail> {
    let ahead = Trouble::PageAhead {
        page: 0,
        sequence: 1,
    };
    let numbers = Trouble::HeaderNumbers { pages: 1, place: 5 };
    let rows = [
        ("q6 L q3 L q3 L q3 E", Trouble::Asleep),
        ("q6 L w q3 D q3 E", Trouble::NoAck(None)),
        ("q6 L w q3 D a S q3 E", Trouble::ShortHeader(0)),
        ("q6 L w q3 D a S m10 E", Trouble::NoHeaderAck(0x21)),
        ("q6 L w q3 D a S y10 E", Trouble::HeaderCheck),
        ("q6 L w q3 D a S h15 E", numbers),
        ("q6 L w q3 D a S h20 A p1abcde E", ahead),
        (
            "q6 L w q3 D a S h10 A q9 N q9 N q9 N q3 E",
            Trouble::PageLost { page: 0 },
        ),
    ];
    for (text, trouble) in rows {
        let talk = talk_of(rt.alloc(), text)?;
        assert_eq!(rt;
            tried(&talk),
            Some(TrialEnd::Attempt(PumpEnd::Failed(trouble))),
            "at {text}"
        );
    }
    Ok(())
}

#[test]
fn each_trouble_has_its_line(rt: HostRuntime) -> Result<(), Fail> {
    let numbers = Trouble::HeaderNumbers {
        pages: 514,
        place: 0,
    };
    let ahead = Trouble::PageAhead {
        page: 3,
        sequence: 7,
    };
    let rows = [
        (Trouble::Asleep, "asleep"),
        (Trouble::NoAck(Some(0x21)), "no ack 33"),
        (Trouble::NoAck(None), "no ack -"),
        (Trouble::ShortHeader(0), "short header 0"),
        (Trouble::NoHeaderAck(255), "no header ack 255"),
        (Trouble::HeaderCheck, "bad header check"),
        (numbers, "bad header numbers 514 0"),
        (Trouble::PageLost { page: 512 }, "page 512 lost"),
        (ahead, "page 3 ahead 7"),
    ];
    for (trouble, line) in rows {
        assert!(rt; trouble.line().as_slice() == line.as_bytes(), "at {line}");
    }
    Ok(())
}

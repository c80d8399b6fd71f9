use crate::new_console;
use console_server::{ServeEnd, Served, make_ready, serve};
use loop_packet::LoopPacket;
use schedule_file::Schedule;
use serial_link::{ScriptItem, ScriptLink, TalkItem};
use station_base::Period;
use std::alloc::Global;
use std::test::Fail;

// A link that plays bytes, in which `.` is a quiet wait, `!` a receive that fails, and `~` a send that fails.
fn plays(alloc: Global, script: &[u8]) -> Result<ScriptLink, Fail> {
    let mut items = Vec::new(alloc);
    for byte in script {
        items.push(match byte {
            b'.' => ScriptItem::Quiet,
            b'!' => ScriptItem::Fail,
            b'~' => ScriptItem::SendFails,
            _ => ScriptItem::Bytes(*byte),
        })?;
    }
    Ok(ScriptLink::new(alloc, items)?)
}

// The bytes that were said, and how many messages they are.
fn said(alloc: Global, talk: &[TalkItem]) -> Result<(Vec<u8>, u32), Fail> {
    let mut bytes = Vec::new(alloc);
    let mut messages = 0_u32;
    for item in talk {
        if let TalkItem::Said { byte, ends } = item {
            bytes.push(*byte)?;
            messages = messages.saturating_add(u32::from(*ends));
        }
    }
    Ok((bytes, messages))
}

// What a serving came to: its end, how many bytes it heard, and what it said.
#[derive(Drop)]
struct Outcome {
    end: ServeEnd,
    count: Served,
    bytes: Vec<u8>,
    messages: u32,
}

// Serves a new console, for which so much of a schedule comes before, over a link that plays a script.
fn serving(alloc: Global, before: &[u8], script: &[u8], turns: u32) -> Result<Outcome, Fail> {
    let five = Period::from_minutes(5).ok_or("no period")?;
    let schedule = Schedule::read(alloc, before, five)
        .ok()
        .ok_or("no schedule")?;
    let mut console = new_console(alloc, five, LoopPacket::blank())?;
    make_ready(&mut console, schedule.steps(), five);
    let mut link = plays(alloc, script)?;
    let mut count = Served { heard: 0, said: 0 };
    let end = serve(&mut console, &mut link, turns, &mut count);
    let (bytes, messages) = said(alloc, link.talk())?;
    Ok(Outcome {
        end,
        count,
        bytes,
        messages,
    })
}

#[test]
fn commands_are_answered_by_the_table_of_the_console(rt: HostRuntime) -> Result<(), Fail> {
    // What comes, the turns, what is said, and in how many messages.
    let rows: [(&[u8], u32, &[u8], u32); 8] = [
        (b"\n.", 2, b"\n\r", 1),
        (b"TEST\n", 1, b"\n\rTEST\n\r", 1),
        (b"WRD\x12M\n", 1, b"\x06\x10", 1),
        (b"VER\n", 1, b"\x21", 1),
        (b"SETPER 5\n", 1, b"\x06", 1),
        (b"EEBRD 2D 01\n", 1, b"\x06\x05\x50\xA5", 1),
        (b"\n\nTEST\n", 1, b"\n\r\n\r\n\rTEST\n\r", 3),
        (b"DMPAFT\nA...", 4, b"\x06\x21", 2),
    ];
    for (script, turns, bytes, messages) in rows {
        let outcome = serving(rt.alloc(), b"", script, turns)?;
        assert!(rt; outcome.end == ServeEnd::Done, "{script:?}");
        assert!(rt; outcome.bytes.as_slice() == bytes, "{script:?}");
        assert!(rt;
            (outcome.messages, outcome.count.said) == (messages, bytes.len() as u64),
            "{script:?}"
        );
    }
    Ok(())
}

#[test]
fn a_piece_has_256_bytes_at_most(rt: HostRuntime) -> Result<(), Fail> {
    // Turns, how many of 300 line feeds are heard, and how many bytes are said.
    for (turns, heard, said) in [(1, 256, 512), (2, 300, 600)] {
        let outcome = serving(rt.alloc(), b"", &[b'\n'; 300], turns)?;
        assert!(rt; outcome.end == ServeEnd::Done);
        assert_eq!(rt; outcome.count, Served { heard, said });
    }
    Ok(())
}

#[test]
fn a_link_that_fails_ends_the_serving(rt: HostRuntime) -> Result<(), Fail> {
    // What comes, and how many bytes are said before the link fails.
    let rows: [(&[u8], usize); 4] = [(b"!", 0), (b"", 0), (b"\n~", 0), (b".TEST\n.!", 8)];
    for (script, bytes) in rows {
        let outcome = serving(rt.alloc(), b"", script, 9)?;
        assert!(rt; outcome.end == ServeEnd::LinkFault, "{script:?}");
        assert_eq!(rt; outcome.bytes.len(), bytes, "{script:?}");
    }
    Ok(())
}

#[test]
fn a_console_left_alone_for_32_ticks_sleeps(rt: HostRuntime) -> Result<(), Fail> {
    // The ticks before the first round, and what is said to two line feeds.
    let rows: [(&[u8], &[u8]); 3] = [
        (b"idle 31\nround\nidle 40\n", b"\n\r\n\r"),
        (b"idle 32\nround\n", b"\n\r"),
        (b"idle 20\nopen\nidle 12\n", b"\n\r"),
    ];
    for (before, bytes) in rows {
        let outcome = serving(rt.alloc(), before, b"\n\n", 1)?;
        assert!(rt; outcome.end == ServeEnd::Done, "{before:?}");
        assert!(rt; outcome.bytes.as_slice() == bytes, "{before:?}");
    }
    Ok(())
}

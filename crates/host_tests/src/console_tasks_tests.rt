use arrayvec::ArrayVec;
use console_tasks::{TaskEnd, loop_packets, station_kind};
use loop_packet::{LoopPacket, write};
use serial_link::{ScriptItem, ScriptLink, TalkItem};
use std::alloc::Global;
use std::test::Fail;

// A part of a script: bytes that are heard, or so many quiet waits.
#[derive(Clone, Copy)]
enum Part<'a> {
    Bytes(&'a [u8]),
    Waits(u8),
}

use Part::{Bytes, Waits};

// A link to a console that is awake, and then plays these parts.
fn plays(alloc: Global, parts: &[Part<'_>]) -> Result<ScriptLink, Fail> {
    let mut items = Vec::new(alloc);
    add(&mut items, &Waits(6))?;
    add(&mut items, &Bytes(b"\n\r"))?;
    add(&mut items, &Waits(3))?;
    for part in parts {
        add(&mut items, part)?;
    }
    Ok(ScriptLink::new(alloc, items)?)
}

fn add(items: &mut Vec<ScriptItem>, part: &Part<'_>) -> Result<(), Fail> {
    match part {
        Bytes(bytes) => {
            for byte in *bytes {
                items.push(ScriptItem::Bytes(*byte))?;
            }
        }
        Waits(count) => {
            for _ in 0..*count {
                items.push(ScriptItem::Quiet)?;
            }
        }
    }
    Ok(())
}

#[test]
fn a_packet_may_come_after_nine_quiet_waits(rt: HostRuntime) -> Result<(), Fail> {
    let bytes = write(&LoopPacket::blank());
    let rows = [(9, TaskEnd::Done, 2), (10, TaskEnd::Short(0), 0)];
    for (waits, end, count) in rows {
        let mut into = ArrayVec::new();
        let parts = [Bytes(&[6]), Bytes(&bytes), Waits(waits), Bytes(&bytes)];
        let mut link = plays(rt.alloc(), &parts)?;
        assert_eq!(rt; loop_packets(&mut link, 2, &mut into), end);
        assert_eq!(rt; into.len(), count);
    }
    Ok(())
}

#[test]
fn a_line_is_still_after_six_quiet_waits_in_a_row(rt: HostRuntime) -> Result<(), Fail> {
    let mut items = Vec::new(rt.alloc());
    for part in [
        Waits(5),
        Bytes(b"x"),
        Waits(6),
        Bytes(b"\n\r"),
        Waits(3),
        Bytes(&[0x06, 0x10]),
    ] {
        add(&mut items, &part)?;
    }
    let mut link = ScriptLink::new(rt.alloc(), items)?;
    assert_eq!(rt; station_kind(&mut link, &mut 0), TaskEnd::Done);
    let first = link
        .talk()
        .iter()
        .position(|item| matches!(item, TalkItem::Said { .. }));
    assert_eq!(rt; first, Some(12));
    Ok(())
}

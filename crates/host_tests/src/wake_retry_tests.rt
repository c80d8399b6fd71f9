use serial_link::{ScriptItem, ScriptLink};
use std::alloc::Global;
use std::test::Fail;
use wake_retry::{Asked, Settled, Woken, ask, settle, wake};

// A link that plays a text, in which `.` is a quiet wait, `!` a receive that fails, and else a byte that is heard.
fn plays(alloc: Global, text: &str) -> Result<ScriptLink, Fail> {
    let mut items = Vec::new(alloc);
    for byte in text.as_bytes() {
        items.push(match byte {
            b'.' => ScriptItem::Quiet,
            b'!' => ScriptItem::Fail,
            _ => ScriptItem::Bytes(*byte),
        })?;
    }
    Ok(ScriptLink::new(alloc, items)?)
}

// A link on which so many bytes are heard, 0 to 250 over and over, and then three quiet waits pass.
fn plays_bytes(alloc: Global, count: u32) -> Result<ScriptLink, Fail> {
    let mut items = Vec::new(alloc);
    for i in 0..count {
        items.push(ScriptItem::Bytes((i % 251) as u8))?;
    }
    for _ in 0..3_u8 {
        items.push(ScriptItem::Quiet)?;
    }
    Ok(ScriptLink::new(alloc, items)?)
}

#[test]
fn a_settling_floods_at_65_536_bytes(rt: HostRuntime) -> Result<(), Fail> {
    let mut link = plays_bytes(rt.alloc(), 65_536)?;
    assert_eq!(rt; settle(&mut link, 3), Settled::Flood);
    let mut link = plays_bytes(rt.alloc(), 65_535)?;
    let still = Settled::Still {
        took: 65_535,
        tail: [22, 23],
    };
    assert_eq!(rt; settle(&mut link, 3), still);
    Ok(())
}

#[test]
fn a_settling_of_an_ended_line_says_nothing(rt: HostRuntime) -> Result<(), Fail> {
    let mut link = plays(rt.alloc(), "")?;
    assert_eq!(rt; settle(&mut link, 6), Settled::LinkFault);
    assert_eq!(rt; link.talk().len(), 0);
    Ok(())
}

#[test]
fn a_wake_takes_up_to_three_tries(rt: HostRuntime) -> Result<(), Fail> {
    let rows = [
        ("\n\r...", Woken::Awake, 6),
        ("...\n\r...", Woken::Awake, 10),
        ("...\r\n...\n\r...", Woken::Awake, 16),
        ("\n\rX...\n......\n\r...", Woken::Asleep, 16),
        ("!", Woken::LinkFault, 1),
    ];
    for (text, answer, items) in rows {
        let mut link = plays(rt.alloc(), text)?;
        assert_eq!(rt; wake(&mut link), answer, "at {text}");
        assert_eq!(rt; link.talk().len(), items, "at {text}");
    }
    Ok(())
}

#[test]
fn an_answer_is_short_after_three_quiet_waits(rt: HostRuntime) -> Result<(), Fail> {
    let rows = [
        ("...WXYZ", Asked::Short(0)),
        ("W..XY...Z", Asked::Short(3)),
        ("WXY", Asked::LinkFault),
    ];
    for (text, answer) in rows {
        let mut link = plays(rt.alloc(), text)?;
        let mut buf = [0; 4];
        assert_eq!(rt; ask(&mut link, b"TEST\n", &mut buf), answer, "at {text}");
    }
    Ok(())
}

#[test]
fn an_answer_may_come_in_pieces(rt: HostRuntime) -> Result<(), Fail> {
    let rows = ["WXYZ...", ".WXYZ...", "W.XYZ...", "WX..YZ...", "WXY.Z..."];
    for text in rows {
        let mut link = plays(rt.alloc(), text)?;
        let still = Settled::Still {
            took: 4,
            tail: [b'Y', b'Z'],
        };
        assert_eq!(rt; settle(&mut link, 3), still, "at {text}");
        let mut link = plays(rt.alloc(), text)?;
        let mut buf = [0; 4];
        assert_eq!(rt;
            ask(&mut link, b"TEST\n", &mut buf),
            Asked::Full,
            "at {text}"
        );
        assert_eq!(rt; buf, *b"WXYZ", "at {text}");
    }
    Ok(())
}

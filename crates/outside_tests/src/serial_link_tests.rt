use crate::calls::{calls, hears, sends};
use serial_link::{Connected, Recv, ScriptItem, ScriptLink, Sent, TalkItem};
use std::alloc::Global;
use std::test::Fail;

// A link that plays these items.
fn plays(alloc: Global, items: &[ScriptItem]) -> Result<ScriptLink, Fail> {
    Ok(ScriptLink::new(alloc, Vec::from_slice(alloc, items)?)?)
}

#[test]
fn plays_its_script_in_order(rt: HostRuntime) -> Result<(), Fail> {
    use ScriptItem::{Bytes, Fail as Fails, Quiet, SendFails};
    let items = [SendFails, Bytes(10), Bytes(13), Bytes(6), Quiet, Fails];
    let mut link = plays(rt.alloc(), &items)?;
    for answer in [Connected::Failed, Connected::Done] {
        assert_eq!(rt; calls(&mut link), answer);
    }
    assert_eq!(rt; sends(&rt, &mut link, b"A\n"), Sent::Done);
    // What is heard, up to the end of the script and past it.
    let pieces: [(Recv, &[u8]); 5] = [
        (Recv::Got(2), &[10, 13]),
        (Recv::Got(1), &[6]),
        (Recv::Quiet, &[]),
        (Recv::Failed, &[]),
        (Recv::Failed, &[]),
    ];
    for (answer, bytes) in pieces {
        let mut buf = [0; 2];
        assert_eq!(rt; hears(&rt, &mut link, &mut buf), answer);
        assert!(rt; buf.starts_with(bytes));
    }
    let talk = [
        TalkItem::Said {
            byte: b'A',
            ends: false,
        },
        TalkItem::Said {
            byte: b'\n',
            ends: true,
        },
        TalkItem::Heard(10),
        TalkItem::Heard(13),
        TalkItem::Heard(6),
        TalkItem::Quiet,
    ];
    assert_eq!(rt; link.talk(), talk.as_slice());
    Ok(())
}

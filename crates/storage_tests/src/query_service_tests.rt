use crate::archives::{CHANGES, LONGEST, archive};
use crate::dated_rows::Time;
use disk_model::MemDisk;
use query_service::{Queries, QueryEnd, answer_queries};
use serial_link::{ScriptItem, ScriptLink, TalkItem};
use std::alloc::Global;
use std::process::Abort;
use std::test::Fail;

// Two times of one day.
const TWO: [Time; 2] = [(7, 1, 5), (7, 1, 10)];

// A script of these bytes, with a wait between two pieces, and then of one more item.
fn script(alloc: Global, pieces: &[&[u8]], last: Option<ScriptItem>) -> Result<ScriptLink, Fail> {
    let mut items = Vec::new(alloc);
    for (n, piece) in pieces.iter().enumerate() {
        if n > 0 {
            items.push(ScriptItem::Quiet)?;
        }
        for byte in *piece {
            items.push(ScriptItem::Bytes(*byte))?;
        }
    }
    if let Some(item) = last {
        items.push(item)?;
    }
    Ok(ScriptLink::new(alloc, items)?)
}

// What was said.
fn said(alloc: Global, link: &ScriptLink) -> Result<Vec<u8>, Fail> {
    let mut bytes = Vec::new(alloc);
    for item in link.talk() {
        if let TalkItem::Said { byte, .. } = item {
            bytes.push(*byte)?;
        }
    }
    Ok(bytes)
}

#[test]
fn a_link_or_a_disk_that_fails_ends_the_service(rt: HostRuntime) -> Result<(), Fail> {
    let alloc = rt.alloc();
    let rows = b"count\nrows 2024-07-01 2024-07-01\n";
    let cases: [(&[u8], ScriptItem, u64, QueryEnd, u64, &str); 5] = [
        (
            b"count\n",
            ScriptItem::Fail,
            9,
            QueryEnd::LinkFault,
            1,
            "count 2\n",
        ),
        (
            b"count\n",
            ScriptItem::SendFails,
            9,
            QueryEnd::LinkFault,
            0,
            "",
        ),
        (b"last\n", ScriptItem::Quiet, 1, QueryEnd::DiskFault, 0, ""),
        (
            rows,
            ScriptItem::Quiet,
            1,
            QueryEnd::DiskFault,
            1,
            "count 2\n",
        ),
        (rows, ScriptItem::SendFails, 1, QueryEnd::LinkFault, 0, ""),
    ];
    for (heard, last, call, want, lines, text) in cases {
        let mut disk = MemDisk::new(alloc, LONGEST, CHANGES, LONGEST)?;
        let book = archive(&rt, alloc, &mut disk, &TWO)?;
        assert!(rt; call >= 1);
        disk.fail_at(call);
        let mut link = script(alloc, &[heard], Some(last))?;
        let mut count = Queries { lines: 0 };
        let end = answer_queries(&book, &mut disk, &mut link, 2, &mut count);
        assert_eq!(rt; (end, count.lines), (want, lines));
        assert_eq!(rt; said(alloc, &link)?.as_slice(), text.as_bytes());
    }
    Ok(())
}

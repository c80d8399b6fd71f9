use crate::replay_member::Member;
use disk_model::{Disk, Length};
use schedule_replay::ReplayTurn;
use std::alloc::Global;
use std::process::Abort;
use std::test::Fail;

// Opens a new disk that is to stop within a change: what is written, the file's length, the changes begun.
fn leaves(
    rt: &impl Abort,
    alloc: Global,
    stop: &str,
    written: &str,
    length: u64,
    changes: u64,
) -> Result<(), Fail> {
    let mut member = Member::new(rt, alloc, &format!(in alloc; "open\n{stop}")?)?;
    assert!(rt; member.turn() == ReplayTurn::More, "{stop}");
    assert!(rt; member.out.bytes() == written.as_bytes(), "{stop}");
    assert!(rt; member.disk.length() == Length::Known(length), "{stop}");
    assert_eq!(rt; member.disk.moment(), changes, "{stop}");
    Ok(())
}

#[test]
fn a_stop_leaves_the_length_that_is_picked(rt: HostRuntime) -> Result<(), Fail> {
    let opened = "open rows 0\n";
    let rows = [
        ("", opened, 177, 3),
        ("stop 1 1\n", "open stop 1\n", 0, 1),
        ("stop 2 0\n", "open stop 2\n", 0, 2),
        ("stop 2 1\n", "open stop 2\n", 177, 2),
        ("stop 2 2\n", "open stop 2\n", 177, 2),
        ("stop 2 5\n", "open stop 2\n", 5, 2),
        ("stop 2 180\n", "open stop 2\n", 2, 2),
        ("stop 3 0\n", "open stop 3\n", 0, 3),
        ("stop 3 177\n", "open stop 3\n", 177, 3),
        ("stop 4 0\n", opened, 177, 3),
    ];
    for (stop, written, length, changes) in rows {
        leaves(&rt, rt.alloc(), stop, written, length, changes)?;
    }
    Ok(())
}

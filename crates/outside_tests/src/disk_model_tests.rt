use crate::calls::{attaches, length, reads, syncs, writes};
use disk_model::{Disk, Length, MemDisk, Stopping};
use std::alloc::Global;
use std::process::Abort;
use std::test::Fail;

const SYNCED: &[u8] = b"abcdefgh";

const LONGEST: usize = 16;

// A disk on which the first bytes are synced.
fn synced(rt: &impl Abort, alloc: Global) -> Result<MemDisk, Fail> {
    let mut disk = MemDisk::new(alloc, LONGEST, 4, 32)?;
    assert!(rt; writes(rt, &mut disk, 0, SYNCED) && syncs(rt, &mut disk));
    Ok(disk)
}

// Such a disk that stopped within the last of these writes, and was restarted.
fn restarted(
    rt: &impl Abort,
    alloc: Global,
    pieces: &[(u64, &[u8])],
    pick: u64,
) -> Result<Stopping<MemDisk>, Fail> {
    let mut disk = Stopping::new(synced(rt, alloc)?);
    assert!(rt; !disk.stopped() && !pieces.is_empty());
    disk.arm(pieces.len() as u64, pick);
    for &(at, bytes) in pieces {
        let _done = writes(rt, &mut disk, at, bytes);
    }
    assert!(rt; disk.stopped());
    disk.restart();
    Ok(disk)
}

// Whether a disk has just these bytes.
fn holds(disk: &mut impl Disk, left: &[u8]) -> bool {
    let mut bytes = [0; LONGEST];
    left.len() <= LONGEST
        && disk.length() == Length::Known(left.len() as u64)
        && reads(disk, 0, &mut bytes[..left.len()])
        && &bytes[..left.len()] == left
}

// A stop within the last of these writes leaves these bytes.
fn leaves(
    rt: &impl Abort,
    alloc: Global,
    pieces: &[(u64, &[u8])],
    pick: u64,
    left: &[u8],
) -> Result<(), Fail> {
    let mut disk = restarted(rt, alloc, pieces, pick)?;
    assert!(rt; holds(&mut disk, left), "at {pick}");
    Ok(())
}

#[test]
fn a_restart_takes_the_picked_image(rt: HostRuntime) -> Result<(), Fail> {
    let within: [&[u8]; 7] = [
        b"abcdefgh",
        b"abWXYZgh",
        b"ab\xFF\xFF\xFF\xFFgh",
        b"ab\xDAdeZgh",
        b"abxxefgh",
        b"ab\xFF\x17\x17fgh",
        b"ab\xFF\xFF\xB5\xB5gh",
    ];
    let grows: [&[u8]; 7] = [
        b"abcdefgh",
        b"abcdefSTUVWXYZ",
        b"abcdef\xFF\xFF\xFF\xFF\xFF\xFF\xFF\xFF",
        b"abcdef\xFF\xFF\xDA\xDA\x00",
        b"abcdefS\xFF\xFFx\x00\x00",
        b"abcdefST\xFF\xFF\x17\x00\x00",
        b"abcdefgTU\xFF\xB5\xB5\x00\x00",
    ];
    let two: [&[u8]; 7] = [
        b"abcdefgh",
        b"aJKLefgh\x00\x00XYZ",
        b"a\xFF\xFF\xFFefgh\xFF\xFF\xFF\xFF\xFF",
        b"a\xDA\xDAdefgh\xDA\xDA\x00",
        b"a\xFFxxefgh\xFFx\x00\x00",
        b"aJ\xFF\x17efgh\xFF\xFF\x17\x00\x00",
        b"aJ\xFF\xFFefgh",
    ];
    for pick in 0..7 {
        leaves(&rt, rt.alloc(), &[(2, b"WXYZ")], pick as u64, within[pick])?;
        leaves(
            &rt,
            rt.alloc(),
            &[(6, b"STUVWXYZ")],
            pick as u64,
            grows[pick],
        )?;
        leaves(
            &rt,
            rt.alloc(),
            &[(1, b"JKL"), (10, b"XYZ")],
            pick as u64,
            two[pick],
        )?;
    }
    Ok(())
}

// A disk on which the first bytes are written, and this call from then on fails.
fn failing(rt: &impl Abort, alloc: Global, call: u64) -> Result<MemDisk, Fail> {
    let mut disk = MemDisk::new(alloc, LONGEST, 4, 32)?;
    assert!(rt; writes(rt, &mut disk, 0, SYNCED) && call >= 1);
    disk.fail_at(call);
    Ok(disk)
}

#[test]
fn each_call_fails_in_turn(rt: HostRuntime) -> Result<(), Fail> {
    for call in 1..6 {
        let mut disk = failing(&rt, rt.alloc(), call)?;
        let done = [
            attaches(&mut disk, "archive", true),
            length(&mut disk) == Length::Known(8),
            reads(&mut disk, 4, &mut [0; 4]),
            writes(&rt, &mut disk, 8, b"i"),
            syncs(&rt, &mut disk),
        ];
        for (i, was_done) in done.iter().enumerate() {
            assert_eq!(rt; *was_done, i as u64 + 1 != call, "call {i} if {call} fails");
        }
        assert_eq!(rt; disk.moment(), 3, "a change that fails is begun");
        let left = Length::Known(if call == 4 { 8 } else { 9 });
        assert!(rt; length(&mut disk) == left, "if {call} fails");
    }
    Ok(())
}

use crate::archives::{CHANGES, LONGEST, add, open};
use crate::dated_rows::{Time, row_of};
use archive_copy::{CopyEnd, copy};
use disk_model::{Disk, MemDisk, Stopping};
use std::alloc::Global;
use std::process::Abort;
use std::test::Fail;
use weather_book::{Purpose, RowAnswer};

// How many calls of the first disk a copy of the seven rows makes: five of a recovery, and a read for each day.
const FROM_CALLS: u64 = 7;

// The times of seven rows of two days.
const TIMES: [Time; 7] = [
    (7, 1, 5),
    (7, 1, 10),
    (7, 1, 15),
    (7, 2, 5),
    (7, 2, 10),
    (7, 2, 15),
    (7, 2, 20),
];

// The archive of all seven rows.
fn all_rows(rt: &impl Abort, alloc: Global) -> Result<MemDisk, Fail> {
    let mut disk = MemDisk::new(alloc, LONGEST, CHANGES, LONGEST)?;
    let mut book = open(rt, alloc, &mut disk, Purpose::Write)?;
    for times in [&TIMES[..3], &TIMES[3..]] {
        assert!(rt; add(rt, alloc, &mut book, &mut disk, times)?);
    }
    Ok(disk)
}

// How many of the seven rows the archive on a disk has, from the first on and no others.
fn held<D: Disk>(rt: &impl Abort, alloc: Global, disk: &mut D) -> Result<u64, Fail> {
    let book = open(rt, alloc, disk, Purpose::Read)?;
    assert!(rt; book.len() <= 7);
    for n in 0..book.len() {
        let row = row_of(rt, TIMES[n as usize]);
        assert!(rt; book.row(disk, n) == RowAnswer::Row(row));
    }
    Ok(book.len())
}

// A copy that stops within change `k`, is restarted and called again. The twelfth is the sync of a second copy.
fn stopped(rt: &impl Abort, alloc: Global, k: u64, pick: u64) -> Result<(), Fail> {
    let mut from = all_rows(rt, alloc)?;
    let mut to = Stopping::new(MemDisk::new(alloc, LONGEST, CHANGES, LONGEST)?);
    assert!(rt; k > 0 && !to.stopped());
    to.arm(k, pick);
    assert!(rt; to.moment() < 1_000);
    if k == 12 {
        assert!(rt; copy(alloc, &mut from, &mut to) == CopyEnd::Done(7));
        assert!(rt; to.moment() < 1_000);
    }
    let end = copy(alloc, &mut from, &mut to);
    assert!(rt; end == CopyEnd::ToFault, "change {k}, pick {pick}");
    assert!(rt; to.stopped());
    to.restart();
    assert!(rt; to.moment() < 1_000);
    let end = copy(alloc, &mut from, &mut to);
    assert!(rt; end == CopyEnd::Done(7), "change {k}, pick {pick}");
    assert_eq!(rt; held(rt, alloc, &mut to)?, 7);
    Ok(())
}

#[test]
fn a_copy_that_was_stopped_goes_on(rt: HostRuntime) -> Result<(), Fail> {
    for pick in 0..7 {
        for k in 1..13 {
            stopped(&rt, rt.alloc(), k, pick)?;
        }
    }
    Ok(())
}

// The end of a copy in which the call `k` of the one disk fails, or of the other one, and how many rows are there then.
fn failed(rt: &impl Abort, alloc: Global, k: u64, of_from: bool) -> Result<(CopyEnd, u64), Fail> {
    let mut from = all_rows(rt, alloc)?;
    let mut to = MemDisk::new(alloc, LONGEST, CHANGES, LONGEST)?;
    assert!(rt; k > 0);
    if of_from {
        from.fail_at(k);
    } else {
        to.fail_at(k);
    }
    assert!(rt; to.moment() < 1_000);
    let end = copy(alloc, &mut from, &mut to);
    Ok((end, held(rt, alloc, &mut to)?))
}

#[test]
fn a_failed_call_gives_the_fault_of_its_disk(rt: HostRuntime) -> Result<(), Fail> {
    for k in 1..20 {
        let (end, rows) = failed(&rt, rt.alloc(), k, true)?;
        let expected = if k <= FROM_CALLS {
            CopyEnd::FromFault
        } else {
            CopyEnd::Done(7)
        };
        assert!(rt; end == expected, "call {k}");
        assert!(rt; rows == 0 || rows == 5 || rows == 7, "call {k}");
    }
    for k in 1..12 {
        let (end, rows) = failed(&rt, rt.alloc(), k, false)?;
        assert!(rt; end == CopyEnd::ToFault, "call {k}");
        assert!(rt; rows == 0 || rows == 5 || rows == 7, "call {k}");
    }
    Ok(())
}

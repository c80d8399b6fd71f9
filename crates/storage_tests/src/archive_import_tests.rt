use crate::archives::{CHANGES, LONGEST, open};
use archive_import::{ImportEnd, Imported, import_rows};
use disk_model::{Disk, MemDisk, Stopping};
use row_text::{count_rows, read_row};
use std::alloc::Global;
use std::process::Abort;
use std::test::Fail;
use weather_book::{Purpose, RowAnswer};

// Seven rows of two days, the first of which ends with midnight.
const TEXT: &[u8] = b"row 2024-07-01 23:50 5 outTemp=654 rain=limit
row 2024-07-01 23:55 5 outTemp=-2000000
row 2024-07-02 00:00 5
row 2024-07-02 00:05 5 outTemp=2000000
row 2024-07-02 00:10 5
row 2024-07-02 00:20 10
row 2024-07-02 00:21 1 rain=0
";

// The bytes of its first two lines.
const TWO_LINES: usize = 86;

// Imports a text of rows.
fn import<D: Disk>(
    rt: &impl Abort,
    alloc: Global,
    text: &[u8],
    to: &mut D,
) -> Result<ImportEnd, Fail> {
    let count = match count_rows(text) {
        Ok(count) => count,
        Err(_) => Err("a line is at fault")?,
    };
    assert!(rt; to.moment() < 1_000);
    Ok(import_rows(alloc, text, count, to))
}

// How many rows of the text the archive on a disk has, from the first on and no others.
fn held<D: Disk>(rt: &impl Abort, alloc: Global, disk: &mut D) -> Result<u64, Fail> {
    let book = open(rt, alloc, disk, Purpose::Read)?;
    assert!(rt; book.len() <= 7);
    let mut n = 0;
    for line in TEXT.split(|byte| *byte == b'\n') {
        if n < book.len() {
            let row = read_row(line).ok();
            assert!(rt; row.is_some_and(|row| book.row(disk, n) == RowAnswer::Row(row)));
            n += 1;
        }
    }
    Ok(n)
}

#[test]
fn rows_of_two_days_are_imported_and_then_passed_over(rt: HostRuntime) -> Result<(), Fail> {
    let mut to = MemDisk::new(rt.alloc(), LONGEST, CHANGES, LONGEST)?;
    let cases = [
        (&TEXT[..TWO_LINES], 2, 0, 2),
        (TEXT, 5, 2, 7),
        (TEXT, 0, 7, 7),
    ];
    for (text, added, passed, rows) in cases {
        let end = import(&rt, rt.alloc(), text, &mut to)?;
        assert!(rt;
            end == ImportEnd::Done(Imported {
                added,
                passed,
                rows
            })
        );
        assert_eq!(rt; held(&rt, rt.alloc(), &mut to)?, rows);
    }
    Ok(())
}

// An import that stops within change `k`, is restarted and called again. The twelfth is the sync of a second import.
fn stopped(rt: &impl Abort, alloc: Global, k: u64, pick: u64) -> Result<(), Fail> {
    let mut to = Stopping::new(MemDisk::new(alloc, LONGEST, CHANGES, LONGEST)?);
    assert!(rt; k > 0 && !to.stopped());
    to.arm(k, pick);
    if k == 12 {
        let end = import(rt, alloc, TEXT, &mut to)?;
        assert!(rt; end != ImportEnd::Fault);
    }
    let end = import(rt, alloc, TEXT, &mut to)?;
    assert!(rt; end == ImportEnd::Fault, "change {k}, pick {pick}");
    assert!(rt; to.stopped());
    to.restart();
    let done = match import(rt, alloc, TEXT, &mut to)? {
        ImportEnd::Done(done) => done,
        _ => Err("not done")?,
    };
    // Before it was called again the archive had none of its two batches, the first or both.
    let counts = (done.added, done.passed, done.rows);
    assert!(rt;
        counts == (7, 0, 7) || counts == (2, 5, 7) || counts == (0, 7, 7),
        "change {k}, pick {pick}"
    );
    assert_eq!(rt; held(rt, alloc, &mut to)?, 7);
    Ok(())
}

#[test]
fn an_import_that_was_stopped_goes_on(rt: HostRuntime) -> Result<(), Fail> {
    for pick in 0..7 {
        for k in 1..13 {
            stopped(&rt, rt.alloc(), k, pick)?;
        }
    }
    Ok(())
}

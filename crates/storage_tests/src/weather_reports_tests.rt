use crate::archives::{CHANGES, LONGEST, THREE_MONTHS, archive};
use disk_model::MemDisk;
use station_base::DayNumber;
use station_io::MemSink;
use std::alloc::Global;
use std::process::Abort;
use std::test::Fail;
use weather_book::Book;
use weather_reports::{ReportEnd, day_table, listing, month_table};

#[derive(Clone, Copy)]
enum Kind {
    Rows,
    Days,
    Months,
}

// The end of a report over these days, and whether it wrote just this text.
fn expect(
    rt: &impl Abort,
    alloc: Global,
    book: &Book,
    disk: &mut MemDisk,
    kind: Kind,
    days: (&[u8], &[u8]),
    text: &str,
) -> Result<ReportEnd, Fail> {
    let first = DayNumber::from_text(days.0).ok_or("no day")?;
    let last = DayNumber::from_text(days.1).ok_or("no day")?;
    let mut out = MemSink::new(alloc, 2_000)?;
    let end = match kind {
        Kind::Rows => listing(book, disk, &mut out, first, last),
        Kind::Days => day_table(book, disk, &mut out, first, last),
        Kind::Months => month_table(book, disk, &mut out, first, last),
    };
    assert_eq!(rt; out.bytes(), text.as_bytes());
    Ok(end)
}

#[test]
fn a_disk_fault_leaves_whole_lines(rt: HostRuntime) -> Result<(), Fail> {
    let alloc = rt.alloc();
    let mut disk = MemDisk::new(alloc, LONGEST, CHANGES, LONGEST)?;
    let book = archive(&rt, alloc, &mut disk, &THREE_MONTHS)?;
    let rows = "row 2024-06-30 12:00 1 outTemp=651\nrow 2024-07-01 00:00 1 outTemp=651\n";
    let june =
        "day 2024-06-30 outTemp min 651 at 2024-06-30 12:00 max 651 at 2024-06-30 12:00 sum 1302 count 2 wsum 78120 sumtime 120\n";
    let all: (&[u8], &[u8]) = (b"1999-12-31", b"2127-12-31");
    let cases = [
        (Kind::Rows, 1, ""),
        (Kind::Rows, 2, rows),
        (Kind::Days, 1, ""),
        (Kind::Days, 2, june),
        (Kind::Months, 2, ""),
    ];
    for (kind, call, text) in cases {
        assert!(rt; call >= 1);
        disk.fail_at(call);
        let end = expect(&rt, alloc, &book, &mut disk, kind, all, text)?;
        assert!(rt; end == ReportEnd::DiskFault);
    }
    Ok(())
}

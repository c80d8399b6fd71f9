use crate::archives::{CHANGES, LONGEST, THREE_MONTHS, archive};
use climate_table::{Fraction, climate, total};
use disk_model::MemDisk;
use station_io::MemSink;
use std::alloc::Global;
use std::process::Abort;
use std::test::Fail;
use weather_book::Book;
use weather_reports::ReportEnd;

// The end of a table of this year, and whether it wrote just this text.
fn expect(
    rt: &impl Abort,
    alloc: Global,
    book: &Book,
    disk: &mut MemDisk,
    year: u16,
    text: &str,
) -> Result<ReportEnd, Fail> {
    assert!(rt; 1999 <= year && year <= 2127);
    let mut out = MemSink::new(alloc, 2_000)?;
    let end = climate(book, disk, &mut out, year);
    assert_eq!(rt; out.bytes(), text.as_bytes());
    Ok(end)
}

#[test]
fn a_fault_ends_a_table_behind_whole_lines(rt: HostRuntime) -> Result<(), Fail> {
    let alloc = rt.alloc();
    let mut disk = MemDisk::new(alloc, LONGEST, CHANGES, LONGEST)?;
    let book = archive(&rt, alloc, &mut disk, &THREE_MONTHS)?;
    let june = "degree 2024-06-30 hdd 0/120 cdd 120/120\n";
    let july = "degree 2024-06-30 hdd 0/120 cdd 120/120
climate 2024-06 days 1 mean 6510 high 651 at 2024-06-30 low 651 at 2024-06-30 rain - wet 0 hdd 0 cdd 100
degree 2024-07-31 hdd 0/60 cdd 60/60
";
    let cases = [(1, ""), (2, june), (3, july)];
    for (call, text) in cases {
        assert!(rt; call >= 1);
        disk.fail_at(call);
        let end = expect(&rt, alloc, &book, &mut disk, 2024, text)?;
        assert!(rt; end == ReportEnd::DiskFault);
    }
    let mut full = MemSink::new(alloc, 20)?;
    assert!(rt; climate(&book, &mut disk, &mut full, 2024) == ReportEnd::WriteFault);
    assert!(rt; full.bytes().is_empty());
    Ok(())
}

#[test]
fn a_total_is_rounded_down_day_by_day(rt: HostRuntime) {
    assert_eq!(rt; total(&[]), 0);
    let third = Fraction {
        numerator: 1,
        denominator: 3,
    };
    assert_eq!(rt; total(&[third, third, third]), 99);
    let day = Fraction {
        numerator: 15_000,
        denominator: 300,
    };
    assert_eq!(rt; total(&[day]), 5_000);
}

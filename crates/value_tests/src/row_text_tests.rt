use row_text::{LineFault, RowFault, TextRows, count_rows, read_row};
use station_base::Stamp;

// The number of the line that is at fault, and the kind of its fault.
fn fault_in(text: &[u8]) -> Option<(u64, u8)> {
    let bad = count_rows(text).err()?;
    Some((bad.line, bad.fault.kind()))
}

#[test]
fn a_line_begins_with_its_stamp_and_period(rt: HostRuntime) {
    let lines: [(&[u8], u8); 22] = [
        (b"\n", 1),
        (b"Row 2026-11-30 12:00 5", 1),
        (b"row", 1),
        (b"row\t2026-11-30 12:00 5", 1),
        (b" row 2026-11-30 12:00 5", 1),
        (b"soft 2026-11-30 12:00 5", 1),
        (b"row ", 2),
        (b"row 2026-2-3 12:00 5", 2),
        (b"row 2026-04-31 12:00 5", 2),
        (b"row 2026-11-30 24:00 5", 2),
        (b"row 1999-12-31 23:59 5", 2),
        (b"row 2128-01-01 00:00 5", 2),
        (b"row 2026-11-30\t12:00 5", 2),
        (b"row 2026-11-30", 2),
        (b"row 2026-11-30 12:00", 3),
        (b"row 2026-11-30 12:00 ", 3),
        (b"row 2026-11-30 12:005", 3),
        (b"row 2026-11-30 12:00  5", 3),
        (b"row 2026-11-30 12:00\t5", 3),
        (b"row 2026-11-30 12:00 05", 3),
        (b"row 2026-11-30 12:00 7", 3),
        (b"row 2026-11-30 12:00 1440", 3),
    ];
    for (line, kind) in lines {
        assert_eq!(rt; fault_in(line), Some((1, kind)));
    }
}

#[test]
fn fields_stand_in_rising_order(rt: HostRuntime) {
    let lines: [(&[u8], u8); 12] = [
        (b"row 2026-11-30 12:00 5 ", 4),
        (b"row 2026-11-30 12:00 5 rain=1 ", 4),
        (b"row 2026-11-30 12:00 5  rain=1", 4),
        (b"row 2026-11-30 12:00 5 foo=1", 4),
        (b"row 2026-11-30 12:00 5 OutTemp=1", 4),
        (b"row 2026-11-30 12:00 5 =5", 4),
        (b"row 2026-11-30 12:00 5 outTemp", 4),
        (b"row 2026-11-30 12:00 5 rain =1", 4),
        (b"row 2026-11-30 12:00 5 rain=1 outTemp=2", 5),
        (b"row 2026-11-30 12:00 5 rain=1 rain=1", 5),
        (b"row 2026-11-30 12:00 5 rain=limit rain=5", 5),
        (b"row 2026-11-30 12:00 5 rain=5 rain=limit", 5),
    ];
    for (line, kind) in lines {
        assert_eq!(rt; fault_in(line), Some((1, kind)));
    }
}

#[test]
fn a_value_is_a_number_as_it_is_printed(rt: HostRuntime) {
    let lines: [(&[u8], u8); 18] = [
        (b"row 2026-11-30 12:00 5 rain=", 6),
        (b"row 2026-11-30 12:00 5 rain=05", 6),
        (b"row 2026-11-30 12:00 5 rain=-05", 6),
        (b"row 2026-11-30 12:00 5 rain=-0", 6),
        (b"row 2026-11-30 12:00 5 rain=-", 6),
        (b"row 2026-11-30 12:00 5 rain=+5", 6),
        (b"row 2026-11-30 12:00 5 rain=5.0", 6),
        (b"row 2026-11-30 12:00 5 rain=0x5", 6),
        (b"row 2026-11-30 12:00 5 rain=5=6", 6),
        (b"row 2026-11-30 12:00 5 rain=5\train=6", 6),
        (b"row 2026-11-30 12:00 5 rain=LIMIT", 6),
        (b"row 2026-11-30 12:00 5 rain=limits", 6),
        (b"row 2026-11-30 12:00 5 rain=12345678901", 6),
        (b"row 2026-11-30 12:00 5 rain=2000001", 7),
        (b"row 2026-11-30 12:00 5 rain=-2000001", 7),
        (b"row 2026-11-30 12:00 5 rain=4294967301", 7),
        (b"row 2026-11-30 12:00 5 rain=9999999999", 7),
        (b"row 2026-11-30 12:00 5 rain=-9999999999", 7),
    ];
    for (line, kind) in lines {
        assert_eq!(rt; fault_in(line), Some((1, kind)));
    }
}

#[test]
fn the_first_fault_from_the_left_counts(rt: HostRuntime) {
    let texts: [(&[u8], u8); 9] = [
        (b"Row 2026-2-3 12:00 7", 1),
        (b"row 2026-2-3 12:00 7", 2),
        (b"row 2026-11-30 12:00 7 foo=1", 3),
        (b"row 2026-11-30 12:00 5 foo=1 rain=x", 4),
        (b"row 2026-11-30 12:00 5 rain=1 outTemp=x", 5),
        (b"row 2026-11-30 12:00 5 rain=x foo=1", 6),
        (b"row 2026-11-30 12:00 5 rain=x windSpeed=2000001", 6),
        (b"row 2026-11-30 12:00 5 rain=2000001 windSpeed=x", 7),
        (b"row 2026-11-30 12:00 5 rain=2000001 outTemp=1", 7),
    ];
    for (text, kind) in texts {
        assert_eq!(rt; fault_in(text), Some((1, kind)));
    }
}

#[test]
fn a_text_is_named_at_its_first_line_that_is_at_fault(rt: HostRuntime) {
    let texts: [(&[u8], (u64, u8)); 14] = [
        (b"\n", (1, 1)),
        (b"row 2026-11-30 12:00 5\n\n", (2, 1)),
        (b"\nrow 2026-11-30 12:00 5\n", (1, 1)),
        (b"row 2026-11-30 12:00 5\r\n", (1, 3)),
        (b"row 2026-11-30 12:00 5 rain=5\r\n", (1, 6)),
        (
            b"row 2026-11-30 12:00 5\n\rrow 2026-11-30 12:05 5\n",
            (2, 1),
        ),
        (b"row 2026-11-30 12:00 5\nrow 2026-11-30 12:00 5\n", (2, 8)),
        (b"row 2026-11-30 12:05 5\nrow 2026-11-30 12:00 5\n", (2, 8)),
        (b"row 2026-11-30 12:00 5", (1, 9)),
        (b"row 2026-11-30 12:00 5\nrow 2026-11-30 12:05 5", (2, 9)),
        (b"row 2026-11-30 12:00 5\nrow 2026-11-30 12:00 5", (2, 8)),
        (
            b"row 2026-11-30 12:00 5\nrow 2026-11-30 12:00 5 rain=x\n",
            (2, 6),
        ),
        (b"row 2026-11-30 12:00 5\nrow x", (2, 2)),
        (b"row 2026-11-30 12:00 5\nfoo\nbar\n", (2, 1)),
    ];
    for (text, bad) in texts {
        assert_eq!(rt; fault_in(text), Some(bad));
    }
}

#[test]
fn rows_are_counted(rt: HostRuntime) {
    let texts: [(&[u8], u64); 5] = [
        (b"", 0),
        (b"row 2026-11-30 12:00 5\n", 1),
        (b"row 2000-01-01 00:00 5\nrow 2127-12-31 23:59 1\n", 2),
        (
            b"row 2026-11-30 12:00 5\nrow 2026-11-30 12:03 15 rain=1\n",
            2,
        ),
        (
            b"row 2026-11-30 23:55 5\nrow 2026-12-01 00:00 5\nrow 2026-12-01 00:05 5\n",
            3,
        ),
    ];
    for (text, count) in texts {
        assert_eq!(rt; count_rows(text).ok(), Some(count));
    }
}

#[test]
fn a_row_has_the_values_of_its_line(rt: HostRuntime) {
    let line =
        b"row 2127-12-31 23:59 120 outTemp=-2000000 rain=limit outHumidity=300 soilMoist4=2000000";
    let row = read_row(line).expect(&rt, "a row");
    assert_eq!(rt; Some(row.stamp), Stamp::from_words(65_439, 2359));
    assert_eq!(rt; row.interval.minutes(), 120);
    assert_eq!(rt; row.values[0], Some(-2_000_000));
    assert_eq!(rt; row.values[3], None);
    assert_eq!(rt; row.values[10], Some(300));
    assert_eq!(rt; row.values[36], Some(2_000_000));
    assert_eq!(rt; row.limited, 8);
    let midnight = read_row(b"row 2026-12-01 00:00 5").expect(&rt, "a row");
    assert_eq!(rt; Some(midnight.stamp), Stamp::from_words(13_697, 0));
    assert_eq!(rt; midnight.values, [None; 37]);
    assert_eq!(rt; midnight.limited, 0);
}

#[test]
fn a_line_may_tell_of_all_fields(rt: HostRuntime) {
    let line = b"row 2026-11-30 12:00 5 outTemp=0 highOutTemp=1 lowOutTemp=2 rain=3 highRainRate=4 \
barometer=5 radiation=6 windSamples=7 inTemp=8 inHumidity=9 outHumidity=10 windSpeed=11 windGust=12 windGustDir=13 windDir=14 \
UV=15 ET=16 highRadiation=17 highUV=18 forecastRule=19 leafTemp1=20 leafTemp2=21 leafWet1=22 leafWet2=23 soilTemp1=24 \
soilTemp2=25 soilTemp3=26 soilTemp4=27 extraHumid1=28 extraHumid2=29 extraTemp1=30 extraTemp2=31 extraTemp3=32 soilMoist1=33 \
soilMoist2=34 soilMoist3=35 soilMoist4=36";
    let row = read_row(line).expect(&rt, "a row");
    for (index, value) in row.values.iter().enumerate() {
        assert_eq!(rt; *value, Some(index as i32));
    }
}

#[test]
fn the_rows_of_a_text_come_one_by_one(rt: HostRuntime) {
    let mut rows = TextRows::of(
        b"row 2026-11-30 12:00 5 rain=1\nrow 2026-11-30 12:05 5 rain=2\nfoo\n",
    );
    for rain in 1..3 {
        let read = rows.next().expect(&rt, "a line");
        assert_eq!(rt; read.expect(&rt, "a row").values[3], Some(rain));
    }
    for _ in 0..2 {
        let bad = rows
            .next()
            .expect(&rt, "a line")
            .err()
            .expect(&rt, "a fault");
        assert_eq!(rt; bad.line, 3);
        assert_eq!(rt; bad.fault, LineFault::NoRowLine(RowFault::NoRow));
    }
    assert!(rt; TextRows::of(b"").next().is_none());
}

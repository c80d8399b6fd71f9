use arrayvec::ArrayVec;
use station_base::{ClockTime, DayNumber, FieldId, LINE_ROOM, Period, Row, Stamp};

#[test]
fn the_last_minute_has_no_stamp_after_it(rt: HostRuntime) {
    let last = Stamp::from_words(65_439, 2359).expect(&rt, "a stamp");
    assert_eq!(rt; last.text(), *b"2127-12-31 23:59");
    assert_eq!(rt; last.minute(), 83_099_519);
    assert_eq!(rt; last.after(Period::shortest()), None);
    assert_eq!(rt; Stamp::from_words(417, 0), None);
}

#[test]
fn midnight_belongs_to_the_day_that_it_ends(rt: HostRuntime) {
    for (time, day) in [
        (0, *b"2024-06-30"),
        (1, *b"2024-07-01"),
        (2359, *b"2024-07-01"),
    ] {
        let stamp = Stamp::from_words(12_513, time).expect(&rt, "a stamp");
        assert_eq!(rt; stamp.archive_day().text(), day);
    }
}

#[test]
fn days_are_read_from_1999_to_2127(rt: HostRuntime) {
    assert_eq!(rt;
        DayNumber::from_text(b"1999-12-31"),
        Some(DayNumber(10_956))
    );
    assert_eq!(rt;
        DayNumber::from_text(b"2127-12-31"),
        Some(DayNumber(57_707))
    );
    assert_eq!(rt; DayNumber::from_text(b"1999-12-30"), None);
    assert_eq!(rt; DayNumber::from_text(b"2128-01-01"), None);
    assert_eq!(rt; DayNumber::from_text(b"2023-02-29"), None);
    assert_eq!(rt; DayNumber::from_text(b"2024-7-001"), None);
}

#[test]
fn a_stamp_is_read_where_the_calendar_has_it(rt: HostRuntime) {
    let stamp = Stamp::from_words(12_513, 10);
    assert!(rt; stamp.is_some());
    assert_eq!(rt; Stamp::from_text(b"2024-07-01 00:10"), stamp);
    let others: [&[u8]; 8] = [
        b"1999-12-31 23:59",
        b"2128-01-01 00:00",
        b"2023-02-29 00:00",
        b"2024-07-01 24:00",
        b"2024-07-01 00:60",
        b"2024-07-01T00:10",
        b"2024-07-01 0:10",
        b"2024-07-01 00:10 ",
    ];
    for text in others {
        assert_eq!(rt; Stamp::from_text(text), None);
    }
}

#[test]
fn fields_are_named_by_their_numbers(rt: HostRuntime) {
    let names = [
        (0, "outTemp", "0.1 F"),
        (16, "ET", "0.001 inch"),
        (36, "soilMoist4", "centibar"),
    ];
    for (index, name, unit) in names {
        let field = FieldId::by_name(name).expect(&rt, "a field");
        assert_eq!(rt; field.index(), index);
        assert!(rt; field.unit() == unit);
    }
    assert!(rt; FieldId::by_name("outtemp").is_none());
}

#[test]
fn a_row_is_printed_with_its_values(rt: HostRuntime) {
    let mut row = Row::default();
    row.stamp = Stamp::from_words(12_513, 5).expect(&rt, "a stamp");
    row.interval = Period::from_minutes(5).expect(&rt, "a period");
    row.values[0] = Some(650);
    row.values[3] = Some(0);
    row.values[4] = Some(0);
    row.values[7] = Some(0);
    row.values[12] = Some(0);
    row.values[16] = Some(-4);
    let mut line = ArrayVec::<u8, LINE_ROOM>::new();
    row.push_line(&mut line);
    let wanted =
        b"row 2024-07-01 00:05 5 outTemp=650 rain=0 highRainRate=0 windSamples=0 windGust=0 ET=-4\n";
    assert!(rt; line.as_slice() == wanted.as_slice());
}

#[test]
fn a_row_names_what_limits_made_missing(rt: HostRuntime) {
    let mut row = Row::default();
    row.stamp = Stamp::from_words(12_513, 5).expect(&rt, "a stamp");
    row.interval = Period::from_minutes(5).expect(&rt, "a period");
    row.limited = 1;
    row.values[3] = Some(0);
    row.values[4] = Some(0);
    row.values[7] = Some(0);
    row.values[12] = Some(0);
    row.values[16] = Some(0);
    let mut line = ArrayVec::<u8, LINE_ROOM>::new();
    row.push_line(&mut line);
    let wanted =
        b"row 2024-07-01 00:05 5 outTemp=limit rain=0 highRainRate=0 windSamples=0 windGust=0 ET=0\n";
    assert!(rt; line.as_slice() == wanted.as_slice());
}

#[test]
fn a_clock_shows_the_seconds_of_the_calendar_from_1900_to_2155(rt: HostRuntime) {
    let second = |year, month, day| {
        let time = ClockTime {
            year,
            month,
            day,
            hour: 23,
            minute: 59,
            second: 59,
        };
        time.is_civil()
    };
    assert!(rt; second(2024, 2, 29) && second(1900, 1, 1) && second(2155, 12, 31));
    assert!(rt; !second(2023, 2, 29) && !second(1900, 2, 29) && !second(2024, 4, 31));
    assert!(rt; !second(1899, 12, 31) && !second(2156, 1, 1) && !second(2024, 0, 1));
}

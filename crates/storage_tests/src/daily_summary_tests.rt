use crate::dated_rows::measured;
use daily_summary::{DaySummary, FieldSum, PART_SIZE, PARTS_SIZE, RunningSummary};
use station_base::{Period, Stamp};
use std::test::Fail;

// 2024-07-01 as a word.
const FIRST_OF_JULY: u16 = 1 + 32 * 7 + 512 * 24;

// The entry of the outside temperature of a day with rows at 00:05 and 00:10, as another program packed it.
const ENTRY_OF_TWO_ROWS: [u8; 44] = [
    0x8A, 0x02, 0x00, 0x00, 0xE1, 0x30, 0x05, 0x00, 0x9F, 0x02, 0x00, 0x00, 0xE1, 0x30, 0x0A, 0x00,
    0x29, 0x05, 0x00, 0x00, 0x00, 0x00, 0x00, 0x00, 0x02, 0x00, 0x00, 0x00, 0x0C, 0x0C, 0x06, 0x00,
    0x00, 0x00, 0x00, 0x00, 0x58, 0x02, 0x00, 0x00, 0x00, 0x00, 0x00, 0x00,
];

// A time of that day.
fn at(time: u16) -> Option<Stamp> {
    Stamp::from_words(FIRST_OF_JULY, time)
}

// The outside temperature of that day.
fn sum_of_two_rows() -> Option<FieldSum> {
    Some(FieldSum {
        least: 650,
        least_at: at(5)?,
        greatest: 671,
        greatest_at: at(10)?,
        sum: 1_321,
        count: 2,
        wsum: 396_300,
        sumtime: 600,
    })
}

#[test]
fn rows_are_added_up(rt: HostRuntime) -> Result<(), Fail> {
    let interval = Period::from_minutes(5).ok_or("no period")?;
    let mut day = RunningSummary::new();
    assert!(rt; day.rows == 0);
    day.add(&measured(&rt, (7, 1, 5), interval, 650));
    day.add(&measured(&rt, (7, 1, 10), interval, 671));
    let summary = day.summary();
    assert!(rt; summary.rows == 2 && summary.fields[0] == sum_of_two_rows());
    assert!(rt; summary.fields[1..].iter().all(|field| field.is_none()));
    let mut first = [0; PART_SIZE];
    first[..44].copy_from_slice(&ENTRY_OF_TWO_ROWS);
    assert!(rt; day.part(0) == first && day.part(12) == [0; PART_SIZE]);
    Ok(())
}

#[test]
fn parts_are_read(rt: HostRuntime) -> Result<(), Fail> {
    let mut parts = [0; PARTS_SIZE];
    parts[..44].copy_from_slice(&ENTRY_OF_TWO_ROWS);
    let day = DaySummary::from_parts(2, &parts).ok_or("no summary")?;
    assert!(rt; day.rows == 2 && day.fields[0] == sum_of_two_rows());
    assert!(rt; day.fields[1..].iter().all(|field| field.is_none()));
    assert!(rt;
        DaySummary::from_parts(1, &parts).is_none(),
        "more values than rows"
    );
    assert!(rt;
        DaySummary::from_parts(1_048_577, &parts).is_none(),
        "too many rows"
    );
    let faults = [
        ("a count 0 of a field with values", 24, 0),
        ("a number without a count", 44, 1),
        ("a day 0", 4, 0xE0),
        ("a minute 60", 14, 60),
        ("a sum beyond 4,000,000", 19, 1),
        ("a time of 88 seconds", 37, 0),
        ("a time of more than four hours", 38, 1),
        ("a weighted sum beyond the sum of the times", 32, 1),
        ("an entry past the last field", 1_628, 1),
        ("the last byte", 1_715, 1),
    ];
    for (fault, place, byte) in faults {
        let mut wrong = parts;
        wrong[place] = byte;
        assert!(rt; DaySummary::from_parts(2, &wrong).is_none(), "{fault}");
    }
    Ok(())
}

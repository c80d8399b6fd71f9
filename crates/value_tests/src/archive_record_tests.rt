use archive_record::{RECORD_SIZE, Rec52, RecordRead, read, write};
use station_base::{FieldId, Period, Row, Stamp};

// The name of each field, its least value and its greatest, and the value that means that there is none.
const FIELDS: [(&str, i32, i32, Option<i32>); 37] = [
    ("outTemp", -32768, 32767, Some(32767)),
    ("highOutTemp", -32768, 32767, Some(-32768)),
    ("lowOutTemp", -32768, 32767, Some(32767)),
    ("rain", 0, 65535, None),
    ("highRainRate", 0, 65535, None),
    ("barometer", 0, 65535, Some(0)),
    ("radiation", 0, 65535, Some(32767)),
    ("windSamples", 0, 65535, None),
    ("inTemp", -32768, 32767, Some(32767)),
    ("inHumidity", 0, 255, Some(255)),
    ("outHumidity", 0, 255, Some(255)),
    ("windSpeed", 0, 255, Some(255)),
    ("windGust", 0, 255, None),
    ("windGustDir", 0, 255, Some(255)),
    ("windDir", 0, 255, Some(255)),
    ("UV", 0, 255, Some(255)),
    ("ET", 0, 255, None),
    ("highRadiation", 0, 65535, Some(32767)),
    ("highUV", 0, 255, Some(255)),
    ("forecastRule", 0, 255, Some(193)),
    ("leafTemp1", -90, 165, Some(165)),
    ("leafTemp2", -90, 165, Some(165)),
    ("leafWet1", 0, 255, Some(255)),
    ("leafWet2", 0, 255, Some(255)),
    ("soilTemp1", -90, 165, Some(165)),
    ("soilTemp2", -90, 165, Some(165)),
    ("soilTemp3", -90, 165, Some(165)),
    ("soilTemp4", -90, 165, Some(165)),
    ("extraHumid1", 0, 255, Some(255)),
    ("extraHumid2", 0, 255, Some(255)),
    ("extraTemp1", -90, 165, Some(165)),
    ("extraTemp2", -90, 165, Some(165)),
    ("extraTemp3", -90, 165, Some(165)),
    ("soilMoist1", 0, 255, Some(255)),
    ("soilMoist2", 0, 255, Some(255)),
    ("soilMoist3", 0, 255, Some(255)),
    ("soilMoist4", 0, 255, Some(255)),
];

// The row without values, but for 0 in the fields that have no mark.
fn unmeasured() -> Row {
    match read(Rec52::default().bytes(), Period::shortest()) {
        RecordRead::Row(row) => row,
        _ => Row::default(),
    }
}

// Whether a row with this value can be written, and is then read back.
fn comes_back(field: FieldId, value: Option<i32>) -> bool {
    let mut row = unmeasured();
    row.values[field.index()] = value;
    match write(&row) {
        Some(record) => read(record.bytes(), row.interval) == RecordRead::Row(row),
        None => false,
    }
}

#[test]
fn a_field_has_the_values_of_its_kind_but_its_mark(rt: HostRuntime) {
    for (name, least, greatest, mark) in FIELDS.iter() {
        let field = FieldId::by_name(name).expect(&rt, "a field");
        assert_eq!(rt;
            comes_back(field, Some(*least)),
            *mark != Some(*least),
            "at {name}"
        );
        assert_eq!(rt;
            comes_back(field, Some(*greatest)),
            *mark != Some(*greatest),
            "at {name}"
        );
        assert!(rt;
            !comes_back(field, Some(least.wrapping_sub(1))),
            "at {name}"
        );
        assert!(rt;
            !comes_back(field, Some(greatest.wrapping_add(1))),
            "at {name}"
        );
        assert_eq!(rt; comes_back(field, None), mark.is_some(), "at {name}");
        if let Some(mark) = mark {
            assert!(rt; !comes_back(field, Some(*mark)), "at {name}");
        }
    }
}

#[test]
fn a_record_of_missing_marks_has_no_values(rt: HostRuntime) {
    let row = unmeasured();
    let missing = row.values.iter().filter(|value| value.is_none()).count();
    assert_eq!(rt; missing, 32);
    assert!(rt; write(&Row::default()).is_none());
}

#[test]
fn the_last_minute_is_written_in_four_bytes(rt: HostRuntime) {
    let mut row = unmeasured();
    row.stamp = Stamp::from_words(65_439, 2359).expect(&rt, "a stamp");
    row.values[0] = Some(650);
    let record = write(&row).expect(&rt, "a record");
    let bytes = record.bytes();
    assert!(rt; bytes[..6] == [0x9F, 0xFF, 0x37, 0x09, 0x8A, 0x02]);
    assert_eq!(rt; record.stamp().text(), *b"2127-12-31 23:59");
}

#[test]
fn slots_without_a_row_are_told_apart(rt: HostRuntime) {
    let five = Period::from_minutes(5).expect(&rt, "a period");
    let mut slot = [0xFF; RECORD_SIZE];
    assert_eq!(rt; read(&slot, five), RecordRead::Empty);
    slot[0] = 0xFE;
    assert_eq!(rt; read(&slot, five), RecordRead::OtherRevision(255));
    slot[42] = 0;
    assert_eq!(rt;
        read(&slot, five),
        RecordRead::BadStamp {
            date: 0xFFFE,
            time: 0xFFFF
        }
    );
    assert!(rt; Rec52::of(slot).is_none());
    assert!(rt; Rec52::of(*Rec52::default().bytes()).is_some());
}

#[test]
fn a_record_is_moved_on_by_its_first_four_bytes(rt: HostRuntime) {
    let five = Period::from_minutes(5).expect(&rt, "a period");
    let mut bytes = *Rec52::default().bytes();
    bytes[..6].copy_from_slice(&[0xE1, 0x30, 0x05, 0x00, 0x8A, 0x02]);
    let rec = Rec52::of(bytes).expect(&rt, "a record");
    let later = rec.moved_on(five).expect(&rt, "a later record");
    assert!(rt; later.bytes()[..6] == [0xE1, 0x30, 0x0A, 0x00, 0x8A, 0x02]);
    bytes[..4].copy_from_slice(&[0x9F, 0xFF, 0x37, 0x09]);
    let last = Rec52::of(bytes).expect(&rt, "the last record");
    assert!(rt; last.moved_on(five).is_none());
}

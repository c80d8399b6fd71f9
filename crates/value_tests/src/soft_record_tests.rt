ghost use Rattle.std.specs.Prelude.{IfSome};
ghost use Rattle.soft_record.specs.Readings.{HasReadings};
ghost use Rattle.soft_record.specs.Standing.{OnClosed};

use arrayvec::ArrayVec;
use loop_packet::{LoopPacket, write};
use soft_record::{ENTRY_SIZE, SoftRecord, Took};
use station_base::{LINE_ROOM, Period, Row};
use std::process::Abort;

// The date words of 2024-07-01, of the day after, and of 2127-12-31.
const DAY: u16 = 12_513;

const NEXT_DAY: u16 = 12_514;

const LAST_DAY: u16 = 65_439;

// The line of the first interval of a day of which no packet told a number.
const SILENT_ROW: &str = "row 2024-07-01 00:05 5 rain=0 highRainRate=0 windSamples=0 ET=0\n";

// An entry: its date word, its time as hour times 100 and minute, its second, and its packet.
fn entry(date: u16, time: u16, second: u8, packet: &LoopPacket) -> [u8; ENTRY_SIZE] {
    let mut bytes = [0; ENTRY_SIZE];
    bytes[..2].copy_from_slice(&date.to_le_bytes());
    bytes[2..4].copy_from_slice(&time.to_le_bytes());
    bytes[4] = second;
    bytes[5..].copy_from_slice(&write(packet));
    bytes
}

// A packet of sensors that told no number, on a day with so much rain.
fn silent(day_rain: u16) -> LoopPacket {
    LoopPacket {
        in_temp: 32_767,
        in_humidity: 255,
        out_temp: 32_767,
        wind: 255,
        out_humidity: 255,
        uv: 255,
        radiation: 32_767,
        day_rain,
        ..LoopPacket::blank()
    }
}

// A record of intervals of so many minutes.
fn record_of(rt: &impl Abort, minutes: u16) -> SoftRecord {
    SoftRecord::new(Period::from_minutes(minutes).expect(rt, "a period"))
}

// Whether the answer is the one wanted: `joined`, `bad`, or the line of the row that it gives.
fn is(took: Took, wanted: &str) -> bool
    requires { OnClosed took HasReadings }
{
    match took {
        Took::Joined => wanted == "joined",
        Took::Closed(row) => has_line(&row, wanted),
        Took::Bad => wanted == "bad",
    }
}

// Whether the row that is given at the end has this line.
fn ends(row: Option<Row>, wanted: &str) -> bool
    requires { IfSome row HasReadings }
{
    match row {
        Some(row) => has_line(&row, wanted),
        None => wanted == "none",
    }
}

// Whether the row has this line.
fn has_line(row: &Row, wanted: &str) -> bool
    requires { HasReadings row.now }
{
    let mut line = ArrayVec::<u8, LINE_ROOM>::new();
    row.push_line(&mut line);
    line.as_slice() == wanted.as_bytes()
}

// Takes entries of one day.
fn take_all(
    rt: &impl Abort,
    record: &mut SoftRecord,
    date: u16,
    steps: &[(u16, u8, LoopPacket, &str)],
) {
    for (time, second, packet, wanted) in steps {
        let took = record.take(&entry(date, *time, *second, packet));
        assert!(rt; is(took, wanted));
    }
}

#[test]
fn two_packets_make_a_row(rt: HostRuntime) {
    let outside = |out_temp| LoopPacket {
        out_temp,
        ..LoopPacket::blank()
    };
    let mut record = record_of(&rt, 5);
    take_all(
        &rt,
        &mut record,
        DAY,
        &[
            (0, 30, outside(650), "joined"),
            (4, 59, outside(653), "joined"),
        ],
    );
    assert!(rt;
        ends(
            record.finish(),
            "row 2024-07-01 00:05 5 outTemp=651 highOutTemp=653 lowOutTemp=650 rain=0 highRainRate=0 radiation=0 windSamples=2 inTemp=0 inHumidity=0 outHumidity=0 windSpeed=0 windGust=0 UV=0 ET=0 highRadiation=0 highUV=0\n",
        )
    );
    assert!(rt; ends(record.finish(), "none"));
}

#[test]
fn an_interval_ends_with_its_full_minute_and_rain_goes_on(rt: HostRuntime) {
    let mut record = record_of(&rt, 5);
    take_all(
        &rt,
        &mut record,
        DAY,
        &[
            (0, 30, silent(5), "joined"),
            (5, 0, silent(7), "joined"),
            (5, 0, silent(9), "bad"),
            (4, 59, silent(9), "bad"),
            (5, 60, silent(9), "bad"),
            (
                5,
                1,
                silent(9),
                "row 2024-07-01 00:05 5 rain=2 highRainRate=0 windSamples=0 ET=0\n",
            ),
            (
                2359,
                59,
                silent(12),
                "row 2024-07-01 00:10 5 rain=2 highRainRate=0 windSamples=0 ET=0\n",
            ),
        ],
    );
    take_all(
        &rt,
        &mut record,
        NEXT_DAY,
        &[
            (0, 0, silent(12), "joined"),
            (
                0,
                1,
                silent(1),
                "row 2024-07-02 00:00 5 rain=3 highRainRate=0 windSamples=0 ET=0\n",
            ),
            (0, 1, silent(1), "bad"),
        ],
    );
    assert!(rt;
        ends(
            record.finish(),
            "row 2024-07-02 00:05 5 rain=1 highRainRate=0 windSamples=0 ET=0\n",
        )
    );
    take_all(&rt, &mut record, DAY, &[(0, 30, silent(50), "joined")]);
    assert!(rt; ends(record.finish(), SILENT_ROW));
}

#[test]
fn a_number_of_the_day_that_falls_begins_again(rt: HostRuntime) {
    let mut record = record_of(&rt, 5);
    take_all(
        &rt,
        &mut record,
        DAY,
        &[
            (0, 10, silent(5), "joined"),
            (0, 20, silent(7), "joined"),
            (0, 30, silent(1), "joined"),
        ],
    );
    assert!(rt;
        ends(
            record.finish(),
            "row 2024-07-01 00:05 5 rain=3 highRainRate=0 windSamples=0 ET=0\n",
        )
    );
}

#[test]
fn a_number_that_is_not_there_does_not_count(rt: HostRuntime) {
    let told = LoopPacket {
        barometer: 29_921,
        in_temp: 702,
        in_humidity: 41,
        out_temp: 655,
        wind: 12,
        wind_ten: 99,
        out_humidity: 77,
        rain_rate: 60,
        uv: 5,
        radiation: 801,
        ..LoopPacket::blank()
    };
    let later = LoopPacket {
        day_et: 7,
        ..silent(4)
    };
    let mut record = record_of(&rt, 5);
    take_all(
        &rt,
        &mut record,
        DAY,
        &[(0, 10, told, "joined"), (0, 20, later, "joined")],
    );
    assert!(rt;
        ends(
            record.finish(),
            "row 2024-07-01 00:05 5 outTemp=655 highOutTemp=655 lowOutTemp=655 rain=4 highRainRate=60 barometer=29921 radiation=801 windSamples=1 inTemp=702 inHumidity=41 outHumidity=77 windSpeed=12 windGust=12 UV=5 ET=7 highRadiation=801 highUV=5\n",
        )
    );
}

#[test]
fn a_mean_is_rounded_towards_the_lesser_number(rt: HostRuntime) {
    let cold = |out_temp, in_temp| LoopPacket {
        out_temp,
        in_temp,
        ..silent(0)
    };
    let mut record = record_of(&rt, 5);
    take_all(
        &rt,
        &mut record,
        DAY,
        &[
            (0, 10, cold(-1, -3), "joined"),
            (0, 20, cold(-2, -4), "joined"),
            (0, 30, cold(32_767, -4), "joined"),
        ],
    );
    assert!(rt;
        ends(
            record.finish(),
            "row 2024-07-01 00:05 5 outTemp=-2 highOutTemp=-1 lowOutTemp=-2 rain=0 highRainRate=0 windSamples=0 inTemp=-4 ET=0\n",
        )
    );
}

#[test]
fn an_entry_whose_interval_ends_at_no_stamp_is_bad(rt: HostRuntime) {
    for (minutes, time, wanted) in [
        (
            5,
            2355,
            "row 2127-12-31 23:55 5 rain=0 highRainRate=0 windSamples=0 ET=0\n",
        ),
        (
            1,
            2359,
            "row 2127-12-31 23:59 1 rain=0 highRainRate=0 windSamples=0 ET=0\n",
        ),
    ] {
        let mut record = record_of(&rt, minutes);
        take_all(
            &rt,
            &mut record,
            LAST_DAY,
            &[(time, 0, silent(0), "joined"), (time, 1, silent(0), "bad")],
        );
        assert!(rt; ends(record.finish(), wanted));
    }
}

#[test]
fn bytes_that_are_no_entry_change_nothing(rt: HostRuntime) {
    let mut record = record_of(&rt, 5);
    let mut longer = [0; ENTRY_SIZE + 1];
    longer[..ENTRY_SIZE].copy_from_slice(&entry(DAY, 1, 0, &silent(1)));
    assert!(rt; is(record.take(&longer[..ENTRY_SIZE - 1]), "bad"));
    assert!(rt; is(record.take(&[]), "bad"));
    assert!(rt; ends(record.finish(), "none"));
    assert!(rt; is(record.take(&entry(DAY, 0, 30, &silent(0))), "joined"));
    assert!(rt; is(record.take(&longer[..ENTRY_SIZE - 1]), "bad"));
    assert!(rt; is(record.take(&longer), "bad"));
    assert!(rt; is(record.take(&entry(0, 1, 0, &silent(1))), "bad"));
    assert!(rt; is(record.take(&entry(DAY, 60, 0, &silent(1))), "bad"));
    let mut changed = entry(DAY, 1, 0, &silent(1));
    changed[ENTRY_SIZE - 1] ^= 1;
    assert!(rt; is(record.take(&changed), "bad"));
    assert!(rt; ends(record.finish(), SILENT_ROW));
}

#[test]
fn an_interval_has_up_to_7200_entries(rt: HostRuntime) {
    let mut record = record_of(&rt, 120);
    for n in 1..=7200u16 {
        let packet = LoopPacket {
            wind: 254,
            ..silent(if n % 2 == 0 { 65_535 } else { 0 })
        };
        let minute = n / 60;
        let time = 100 * (minute / 60) + minute % 60;
        let took = record.take(&entry(DAY, time, (n % 60) as u8, &packet));
        assert!(rt; is(took, "joined"));
    }
    assert!(rt;
        ends(
            record.finish(),
            "row 2024-07-01 02:00 120 rain=65535 highRainRate=0 windSamples=7200 windSpeed=254 windGust=254 ET=0\n",
        )
    );
}

use loop_packet::{LoopFault, LoopPacket, PACKET_SIZE, read, write};

// A packet, and its bytes as another program packed them.
fn day() -> LoopPacket {
    LoopPacket {
        trend: -20,
        next_slot: 2559,
        barometer: 29921,
        in_temp: -1,
        in_humidity: 41,
        out_temp: -400,
        wind: 12,
        wind_ten: 9,
        wind_dir: 359,
        extra_temps: [1, 2, 3, 4, 5, 6, 7],
        soil_temps: [8, 9, 10, 11],
        leaf_temps: [12, 13, 14, 15],
        out_humidity: 77,
        extra_humids: [16, 17, 18, 19, 20, 21, 22],
        rain_rate: 4660,
        uv: 5,
        radiation: 801,
        storm_rain: 258,
        storm_date: 12513,
        day_rain: 772,
        month_rain: 1286,
        year_rain: 1800,
        day_et: 2314,
        month_et: 2828,
        year_et: 3342,
        soil_moists: [23, 24, 25, 26],
        leaf_wets: [27, 28, 29, 30],
        alarms: [
            31, 32, 33, 34, 35, 36, 37, 38, 39, 40, 41, 42, 43, 44, 45, 46,
        ],
        tx_battery: 128,
        console_battery: 788,
        icons: 6,
        rule: 44,
        sunrise: 517,
        sunset: 2032,
    }
}

fn bytes_of_day() -> [u8; PACKET_SIZE] {
    [
        0x4C, 0x4F, 0x4F, 0xEC, 0x00, 0xFF, 0x09, 0xE1, 0x74, 0xFF, 0xFF, 0x29, 0x70, 0xFE, 0x0C,
        0x09, 0x67, 0x01, 0x01, 0x02, 0x03, 0x04, 0x05, 0x06, 0x07, 0x08, 0x09, 0x0A, 0x0B, 0x0C,
        0x0D, 0x0E, 0x0F, 0x4D, 0x10, 0x11, 0x12, 0x13, 0x14, 0x15, 0x16, 0x34, 0x12, 0x05, 0x21,
        0x03, 0x02, 0x01, 0xE1, 0x30, 0x04, 0x03, 0x06, 0x05, 0x08, 0x07, 0x0A, 0x09, 0x0C, 0x0B,
        0x0E, 0x0D, 0x17, 0x18, 0x19, 0x1A, 0x1B, 0x1C, 0x1D, 0x1E, 0x1F, 0x20, 0x21, 0x22, 0x23,
        0x24, 0x25, 0x26, 0x27, 0x28, 0x29, 0x2A, 0x2B, 0x2C, 0x2D, 0x2E, 0x80, 0x14, 0x03, 0x06,
        0x2C, 0x05, 0x02, 0xF0, 0x07, 0x0A, 0x0D, 0x42, 0x9C,
    ]
}

#[test]
fn a_packet_is_read_and_written(rt: HostRuntime) {
    assert_eq!(rt; read(&bytes_of_day()), Ok(day()));
    assert_eq!(rt; write(&day()), bytes_of_day());
}

#[test]
fn a_blank_packet_is_written_and_read(rt: HostRuntime) {
    let blank = LoopPacket::blank();
    let bytes = write(&blank);
    assert_eq!(rt; blank, LoopPacket::default());
    assert_eq!(rt; bytes[97], 0xB1);
    assert_eq!(rt; bytes[98], 0x6F);
    assert_eq!(rt; read(&bytes), Ok(blank));
}

#[test]
fn the_first_fault_is_told(rt: HostRuntime) {
    for (place, then, fault) in [
        (2, 2, LoopFault::BadMark),
        (4, 4, LoopFault::BadType(1)),
        (95, 95, LoopFault::BadEnd),
        (96, 96, LoopFault::BadEnd),
        (98, 98, LoopFault::BadCheck),
        (0, 4, LoopFault::BadMark),
        (4, 96, LoopFault::BadType(1)),
        (95, 97, LoopFault::BadEnd),
    ] {
        let mut bytes = bytes_of_day();
        bytes[place] = bytes[place].wrapping_add(1);
        if then != place {
            bytes[then] = bytes[then].wrapping_add(1);
        }
        assert_eq!(rt; read(&bytes), Err(fault));
    }
}

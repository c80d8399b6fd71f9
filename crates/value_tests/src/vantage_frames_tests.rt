ghost use Rattle.vantage_frames.specs.LineWriting.{CanBeSaid};

use station_base::{Period, Stamp};
use std::process::Abort;
use vantage_frames::{
    Command, HeaderRead, read_command, read_header, stamp_frame, write_command, write_header,
};

#[test]
fn frames_are_those_of_the_manual(rt: HostRuntime) {
    let june = Stamp::from_words(1734, 930);
    let july = Stamp::from_words(12513, 10);
    assert_eq!(rt; stamp_frame(june), [0xC6, 0x06, 0xA2, 0x03, 0x6D, 0xE2]);
    assert_eq!(rt; stamp_frame(july), [0xE1, 0x30, 0x0A, 0x00, 0xD8, 0x30]);
    assert_eq!(rt; stamp_frame(None), [0; 6]);
    assert_eq!(rt; write_header(0, 0), [0; 6]);
    assert_eq!(rt; write_header(1, 0), [0x01, 0x00, 0x00, 0x00, 0x76, 0xB4]);
    assert_eq!(rt; write_header(513, 3), [0x01, 0x02, 0x03, 0x00, 0x4D, 0x87]);
}

#[test]
fn headers_are_judged_by_check_and_then_by_numbers(rt: HostRuntime) {
    use HeaderRead::{BadCheck, BadNumbers, Good};
    for (pages, place, read) in [
        (0, 5, Good { pages: 0, place: 5 }),
        (1, 4, Good { pages: 1, place: 4 }),
        (1, 5, BadNumbers { pages: 1, place: 5 }),
        (
            513,
            4,
            Good {
                pages: 513,
                place: 4,
            },
        ),
        (
            514,
            0,
            BadNumbers {
                pages: 514,
                place: 0,
            },
        ),
    ] {
        let mut header = write_header(pages, place);
        assert_eq!(rt; read_header(&header), read);
        header[0] ^= 1;
        assert_eq!(rt; read_header(&header), BadCheck);
    }
}

#[test]
fn every_command_line_is_read(rt: HostRuntime) {
    for (line, command) in [
        (b"TEST".as_slice(), Command::Test),
        (b"WRD\x12\x4D".as_slice(), Command::Kind),
        (b"LOOP 1".as_slice(), Command::LoopFor(1)),
        (b"LOOP 0010".as_slice(), Command::LoopFor(10)),
        (b"LOOP 9999".as_slice(), Command::LoopFor(9999)),
        (b"DMPAFT".as_slice(), Command::DumpAfter),
        (
            b"EEBRD 0 1".as_slice(),
            Command::EepromRead { at: 0, count: 1 },
        ),
        (
            b"EEBRD 02d 0f".as_slice(),
            Command::EepromRead {
                at: 0x2D,
                count: 15,
            },
        ),
        (
            b"EEBRD FFF 1".as_slice(),
            Command::EepromRead {
                at: 0xFFF,
                count: 1,
            },
        ),
        (
            b"EEBWR 00 1".as_slice(),
            Command::EepromWrite { at: 0, count: 1 },
        ),
        (
            b"EEBWR F01 FF".as_slice(),
            Command::EepromWrite {
                at: 0xF01,
                count: 255,
            },
        ),
        (b"GETEE".as_slice(), Command::EepromAll),
        (b"GETTIME".as_slice(), Command::TimeGet),
        (b"SETTIME".as_slice(), Command::TimeSet),
        (b"CLRLOG".as_slice(), Command::ClearLog),
    ] {
        assert_eq!(rt; read_command(line), Some(command));
    }
    for (line, minutes) in [(b"SETPER 1".as_slice(), 1), (b"SETPER 120".as_slice(), 120)] {
        assert_eq!(rt;
            read_command(line),
            Period::from_minutes(minutes).map(Command::SetPeriod)
        );
    }
}

#[test]
fn no_other_line_is_read(rt: HostRuntime) {
    for line in [
        b"".as_slice(),
        b"TEST\r".as_slice(),
        b"test".as_slice(),
        b" TEST".as_slice(),
        b"TEST ".as_slice(),
        b"WRD \x12\x4D".as_slice(),
        b"LOOP".as_slice(),
        b"LOOP ".as_slice(),
        b"LOOP  1".as_slice(),
        b"LOOP 0".as_slice(),
        b"LOOP 10000".as_slice(),
        b"LOOP 00001".as_slice(),
        b"LOOP 1\r".as_slice(),
        b"loop 1".as_slice(),
        b"EEBRD 2D".as_slice(),
        b"EEBRD 2D 0".as_slice(),
        b"EEBRD 2D  1".as_slice(),
        b"EEBRD 2D 001".as_slice(),
        b"EEBRD 002D 1".as_slice(),
        b"EEBRD 2G 1".as_slice(),
        b"EEBRD FFF 2".as_slice(),
        b"EEBWR F02 FF".as_slice(),
        b"EEBWR 0 1\r".as_slice(),
        b"SETPER".as_slice(),
        b"SETPER 0".as_slice(),
        b"SETPER 2".as_slice(),
        b"SETPER 05".as_slice(),
        b"SETPER 121".as_slice(),
        b"DMPAFT \r".as_slice(),
    ] {
        assert_eq!(rt; read_command(line), None);
    }
}

// The command is written as this line.
fn expect_line(rt: &impl Abort, command: Command, line: &[u8])
    requires { CanBeSaid command }
{
    assert_eq!(rt; write_command(&command).as_slice(), line);
}

#[test]
fn every_command_is_written(rt: HostRuntime) {
    expect_line(&rt, Command::Test, b"TEST\n");
    expect_line(&rt, Command::Kind, b"WRD\x12\x4D\n");
    expect_line(&rt, Command::LoopFor(1), b"LOOP 1\n");
    expect_line(&rt, Command::LoopFor(9999), b"LOOP 9999\n");
    expect_line(&rt, Command::DumpAfter, b"DMPAFT\n");
    expect_line(
        &rt,
        Command::EepromRead { at: 0, count: 1 },
        b"EEBRD 00 01\n",
    );
    expect_line(
        &rt,
        Command::EepromRead {
            at: 0x2D,
            count: 10,
        },
        b"EEBRD 2D 0A\n",
    );
    expect_line(
        &rt,
        Command::EepromWrite {
            at: 0xF01,
            count: 255,
        },
        b"EEBWR F01 FF\n",
    );
    expect_line(&rt, Command::EepromAll, b"GETEE\n");
    expect_line(&rt, Command::TimeGet, b"GETTIME\n");
    expect_line(&rt, Command::TimeSet, b"SETTIME\n");
    expect_line(&rt, Command::ClearLog, b"CLRLOG\n");
    if let Some(period) = Period::from_minutes(5) {
        expect_line(&rt, Command::SetPeriod(period), b"SETPER 5\n");
    }
}

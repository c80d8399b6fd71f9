use crate::new_console;
use archive_record::Rec52;
use console_model::{Console, Due, Reply, ReplyKind};
use loop_packet::LoopPacket;
use station_base::{Period, Stamp};
use std::alloc::Global;
use std::process::Abort;
use value_tests::record_of;

// The stamp frame that asks for all records.
const ALL: [u8; 6] = [0; 6];

// A new console with a period of 5 minutes and a blank packet.
fn console(alloc: Global) -> Option<Console> {
    new_console(alloc, Period::from_minutes(5)?, LoopPacket::blank()).ok()
}

// So many minutes after the first stamp.
fn stamp_at(minute: u8) -> Option<Stamp> {
    Stamp::from_words(33, u16::from(minute) / 60 * 100 + u16::from(minute) % 60)
}

// A record of that stamp.
fn record_at(minute: u8) -> Option<Rec52> {
    record_of(stamp_at(minute)?)
}

// The records of these minutes fall due, and this becomes of each.
fn expect_due(rt: &impl Abort, console: &mut Console, from: u8, to: u8, due: Due) {
    for minute in from..to {
        let record = record_at(minute).expect(rt, "a record");
        assert_eq!(rt; console.due(record), due, "of {minute}");
    }
}

// The last of these bytes is answered so, and none before it.
fn expect(rt: &impl Abort, console: &mut Console, said: &[u8], kind: ReplyKind, bytes: &[u8]) {
    let Some((last, before)) = said.split_last() else {
        panic!(rt; "nothing is said");
    };
    for byte in before {
        let reply = console.hear(*byte);
        assert_eq!(rt;
            reply.kind,
            ReplyKind::Nothing,
            "before the end of {said:?}"
        );
    }
    let reply = console.hear(*last);
    assert_eq!(rt; reply.kind, kind, "to {said:?}");
    assert_eq!(rt; reply.bytes.as_slice(), bytes, "to {said:?}");
}

// So many ticks have no answer.
fn expect_silence(rt: &impl Abort, console: &mut Console, ticks: u8) {
    for _ in 0..ticks {
        assert_eq!(rt; console.tick().kind, ReplyKind::Nothing);
    }
}

#[test]
fn every_line_has_its_answer(rt: HostRuntime) {
    use ReplyKind::{Ack, AckFrame, Code, Nothing, Test, Wake};
    let mut console = console(rt.alloc()).expect(&rt, "a console");
    for (said, kind, bytes) in [
        (b"\n".as_slice(), Wake, b"\n\r".as_slice()),
        (b"TEST\n".as_slice(), Test, b"\n\rTEST\n\r".as_slice()),
        (b"WRD\x12\x4D\n".as_slice(), Ack, b"\x06\x10".as_slice()),
        (
            b"EEBRD 2D 01\n".as_slice(),
            AckFrame,
            b"\x06\x05\x50\xA5".as_slice(),
        ),
        (b"EEBWR 2E 02\n".as_slice(), Ack, b"\x06".as_slice()),
        (b"\x01\x02\x13\x73".as_slice(), Ack, b"\x06".as_slice()),
        (b"EEBWR 2E 02\n".as_slice(), Ack, b"\x06".as_slice()),
        (b"\x03\x02\x13\x73".as_slice(), Code, b"\x18".as_slice()),
        (
            b"EEBRD 02d 3\n".as_slice(),
            AckFrame,
            b"\x06\x05\x01\x02\xF8\x83".as_slice(),
        ),
        (
            b"GETTIME\n".as_slice(),
            AckFrame,
            b"\x06\x00\x00\x00\x01\x01\x7C\xBB\x1A".as_slice(),
        ),
        (b"SETTIME\n".as_slice(), Ack, b"\x06".as_slice()),
        (
            b"\x38\x22\x0C\x01\x07\x7C\x30\x77".as_slice(),
            Ack,
            b"\x06".as_slice(),
        ),
        (b"SETTIME\n".as_slice(), Ack, b"\x06".as_slice()),
        (
            b"\x00\x00\x00\x1E\x02\x7C\x81\x1B".as_slice(),
            Code,
            b"\x18".as_slice(),
        ),
        (b"SETTIME\n".as_slice(), Ack, b"\x06".as_slice()),
        (
            b"\x00\x00\x00\x1D\x02\x7C\xD8\x4C".as_slice(),
            Code,
            b"\x18".as_slice(),
        ),
        (
            b"GETTIME\n".as_slice(),
            AckFrame,
            b"\x06\x38\x22\x0C\x01\x07\x7C\x30\x77".as_slice(),
        ),
        (b"SETPER 10\n".as_slice(), Ack, b"\x06".as_slice()),
        (
            b"EEBRD 2D 01\n".as_slice(),
            AckFrame,
            b"\x06\x0A\xA1\x4A".as_slice(),
        ),
        (b"CLRLOG\n".as_slice(), Ack, b"\x06".as_slice()),
        (b"DMPAFT\n".as_slice(), Ack, b"\x06".as_slice()),
        (
            ALL.as_slice(),
            AckFrame,
            b"\x06\x00\x00\x00\x00\x00\x00".as_slice(),
        ),
        (b"DMPAFT\n".as_slice(), Ack, b"\x06".as_slice()),
        (
            b"\x00\x00\x00\x00\x00\x01".as_slice(),
            Code,
            b"\x18".as_slice(),
        ),
        (b"VER\n".as_slice(), Code, b"\x21".as_slice()),
        (b"TEST\r\n".as_slice(), Code, b"\x21".as_slice()),
        (
            b"12345678901234567890123456789012\n".as_slice(),
            Code,
            b"\x21".as_slice(),
        ),
        (
            b"123456789012345678901234567890123\n".as_slice(),
            Code,
            b"\x21".as_slice(),
        ),
        (b"LOOP 9999\n".as_slice(), Ack, b"\x06".as_slice()),
        (b"\n".as_slice(), Nothing, b"".as_slice()),
        (b"TEST\n".as_slice(), Test, b"\n\rTEST\n\r".as_slice()),
    ] {
        expect(&rt, &mut console, said, kind, bytes);
    }
}

#[test]
fn the_whole_eeprom_is_sent(rt: HostRuntime) {
    let mut console = console(rt.alloc()).expect(&rt, "a console");
    expect(&rt, &mut console, b"GETE", ReplyKind::Nothing, b"");
    assert_eq!(rt; console.hear(b'E').kind, ReplyKind::Nothing);
    let reply = console.hear(b'\n');
    assert_eq!(rt; reply.kind, ReplyKind::AckFrame);
    assert!(rt; reply.completed);
    assert!(rt; reply.bytes.len() == 4099);
    let bytes = reply.bytes.as_slice();
    assert_eq!(rt; &bytes[..2], [0x06, 0].as_slice());
    assert_eq!(rt; bytes[0x2E], 5);
    assert_eq!(rt; &bytes[4097..], [0xBA, 0x9B].as_slice());
}

#[test]
fn a_silent_line_puts_the_console_to_sleep(rt: HostRuntime) {
    use ReplyKind::{Ack, Code, Nothing, Wake};
    let mut console = console(rt.alloc()).expect(&rt, "a console");
    expect(&rt, &mut console, b"\n", Wake, b"\n\r");
    expect_silence(&rt, &mut console, 31);
    expect(&rt, &mut console, b"\n", Wake, b"\n\r");
    expect_silence(&rt, &mut console, 32);
    expect(&rt, &mut console, b"\n", Nothing, b"");
    expect(&rt, &mut console, b"\n", Wake, b"\n\r");
    expect(&rt, &mut console, b"DMPAFT", Nothing, b"");
    expect_silence(&rt, &mut console, 3);
    expect(&rt, &mut console, b"\n", Wake, b"\n\r");
    expect(&rt, &mut console, b"DMPAF", Nothing, b"");
    expect_silence(&rt, &mut console, 2);
    expect(&rt, &mut console, b"T\n", Ack, b"\x06");
    expect(&rt, &mut console, &[0; 3], Nothing, b"");
    expect_silence(&rt, &mut console, 2);
    let reply = console.tick();
    assert_eq!(rt; reply.kind, Code);
    assert_eq!(rt; reply.bytes.as_slice(), b"\x21".as_slice());
    expect(&rt, &mut console, b"\n", Wake, b"\n\r");
}

#[test]
fn packets_come_until_a_byte_is_heard(rt: HostRuntime) {
    use ReplyKind::{Ack, Nothing, Packet, Wake};
    let mut console = console(rt.alloc()).expect(&rt, "a console");
    expect_due(&rt, &mut console, 0, 2, Due::Put);
    for (line, packets) in [(b"LOOP 2\n", 2_u8), (b"LOOP 3\n", 2)] {
        expect(&rt, &mut console, line, Ack, b"\x06");
        for _ in 0..packets {
            expect_silence(&rt, &mut console, 4);
            let reply = console.tick();
            assert_eq!(rt; reply.kind, Packet);
            assert!(rt; reply.bytes.len() == 99);
            assert_eq!(rt; &reply.bytes[..7], b"LOO\0\0\x02\0".as_slice());
            assert_eq!(rt; &reply.bytes[97..], [0xEF, 0x7D].as_slice());
        }
        if line[5] == b'3' {
            expect(&rt, &mut console, b"T", Nothing, b"");
        }
        expect_silence(&rt, &mut console, 31);
        expect(&rt, &mut console, b"\n", Wake, b"\n\r");
    }
}

// Begins a dump of all records, of which there are as many as this header says.
fn begin_dump(rt: &impl Abort, console: &mut Console, header: &[u8], puts: u64) {
    expect(rt, console, b"DMPAFT\n", ReplyKind::Ack, b"\x06");
    expect(rt, console, &ALL[1..], ReplyKind::Nothing, b"");
    let reply = console.hear(0);
    assert!(rt; reply.completed);
    assert_eq!(rt; reply.bytes.as_slice(), header);
    let start = reply.begun.expect(rt, "a dump");
    assert_eq!(rt; start.puts, puts);
    assert_eq!(rt; (start.date, start.time), (0, 0));
}

#[test]
fn each_byte_of_a_dump_has_its_page(rt: HostRuntime) {
    let header = [0x06, 0x02, 0x00, 0x00, 0x00, 0xED, 0x68];
    let mut console = console(rt.alloc()).expect(&rt, "a console");
    expect_due(&rt, &mut console, 0, 6, Due::Put);
    // After so many 0x06 this byte brings the page of this sequence and first minute, or ends the dump.
    for (asked, byte, page) in [
        (0, 0x06, Some((0, 0))),
        (0, 0x15, Some((0, 0))),
        (0, 0x21, Some((0, 0))),
        (0, 0x1B, None),
        (0, b'x', None),
        (1, 0x06, Some((1, 5))),
        (1, 0x15, Some((0, 0))),
        (1, 0x21, Some((0, 0))),
        (1, 0x1B, None),
        (1, b'x', None),
        (2, 0x06, None),
        (2, 0x15, Some((1, 5))),
        (2, 0x21, Some((1, 5))),
        (2, 0x1B, None),
        (2, b'x', None),
    ] {
        begin_dump(&rt, &mut console, &header, 6);
        for _ in 0..asked {
            assert_eq!(rt; console.hear(0x06).kind, ReplyKind::Page);
        }
        let reply = console.hear(byte);
        match page {
            Some((sequence, minute)) => {
                assert_eq!(rt; reply.kind, ReplyKind::Page);
                assert!(rt; reply.bytes.len() == 267);
                let first = [sequence, 0x21, 0x00, minute, 0x00];
                assert_eq!(rt; &reply.bytes[..5], first.as_slice());
                assert!(rt; crc_ccitt::is_good(&reply.bytes));
                expect(&rt, &mut console, b"\n", ReplyKind::Wake, b"\n\r");
            }
            None => {
                assert_eq!(rt; reply.kind, ReplyKind::Nothing);
                // 0x15 is no more than a byte of a line.
                expect(&rt, &mut console, b"\x15\n", ReplyKind::Code, b"\x21");
            }
        }
    }
}

#[test]
fn records_are_held_while_a_dump_lasts(rt: HostRuntime) {
    let mut console = console(rt.alloc()).expect(&rt, "a console");
    expect_due(&rt, &mut console, 0, 1, Due::Put);
    let newest = stamp_at(0).expect(&rt, "a stamp");
    expect_due(&rt, &mut console, 0, 1, Due::NotRising(newest));
    begin_dump(
        &rt,
        &mut console,
        &[0x06, 0x01, 0x00, 0x00, 0x00, 0x76, 0xB4],
        1,
    );
    expect_due(&rt, &mut console, 1, 65, Due::Held);
    let newest = stamp_at(64).expect(&rt, "a stamp");
    expect_due(&rt, &mut console, 60, 65, Due::NotRising(newest));
    expect_due(&rt, &mut console, 65, 66, Due::Put);
    expect(&rt, &mut console, b"\x06\n", ReplyKind::Code, b"\x21");
    let all = [0x06, 0x0E, 0x00, 0x00, 0x00, 0xA2, 0x5A];
    begin_dump(&rt, &mut console, &all, 66);
    for line in [b"CLRLOG\n".as_slice(), b"SETPER 1\n".as_slice()] {
        expect(&rt, &mut console, line, ReplyKind::Ack, b"\x06");
        begin_dump(&rt, &mut console, &[0x06, 0, 0, 0, 0, 0, 0], 0);
        expect_due(&rt, &mut console, 0, 66, Due::Put);
        begin_dump(&rt, &mut console, &all, 66);
    }
}

#[test]
fn a_frame_that_is_no_time_is_a_good_frame(rt: HostRuntime) {
    let mut console = console(rt.alloc()).expect(&rt, "a console");
    for (time, good, kind) in [
        ([0, 0, 0, 0x1D, 2, 0x7C, 0xD8, 0x4B], true, ReplyKind::Ack),
        ([0, 0, 0, 0x1D, 2, 0x00, 0x67, 0x50], true, ReplyKind::Code),
        ([0, 0, 0, 0x1D, 2, 0x00, 0x67, 0x51], false, ReplyKind::Code),
    ] {
        expect(&rt, &mut console, b"SETTIME\n", ReplyKind::Ack, b"\x06");
        expect(&rt, &mut console, &time[..7], ReplyKind::Nothing, b"");
        let reply = console.hear(time[7]);
        assert_eq!(rt; reply.kind, kind);
        assert_eq!(rt; reply.completed, good);
    }
}

// What comes to a console.
#[derive(Clone, Copy)]
enum Event {
    Says(&'static [u8]),
    // So many ticks, in which so many packets come.
    Ticks(u8, u8),
    // The record of this minute falls due, and this becomes of it.
    Falls(u8, Due),
}

const DUMP_ALL: &[u8] = b"DMPAFT\n\0\0\0\0\0\0";

const LONG_LINE: &[u8] = b"123456789012345678901234567890123";

fn let_come(rt: &impl Abort, console: &mut Console, event: &Event, rule: &str) {
    match event {
        Event::Says(bytes) => {
            for byte in *bytes {
                let _ = console.hear(*byte);
            }
        }
        Event::Ticks(ticks, packets) => {
            let mut came = 0_u8;
            for _ in 0..*ticks {
                if console.tick().kind == ReplyKind::Packet {
                    came = came.saturating_add(1);
                }
            }
            assert_eq!(rt; came, *packets, "{rule}");
        }
        Event::Falls(minute, due) => {
            let record = record_at(*minute).expect(rt, "a record");
            assert_eq!(rt; console.due(record), *due, "{rule}");
        }
    }
}

// After one record and these events LF is answered so, and so many records were put.
fn expect_rule(
    rt: &impl Abort,
    alloc: Global,
    rule: &str,
    events: &[Event],
    answer: ReplyKind,
    puts: u64,
) {
    let mut console = console(alloc).expect(rt, "a console");
    expect_due(rt, &mut console, 0, 1, Due::Put);
    for event in events {
        let_come(rt, &mut console, event, rule);
    }
    assert_eq!(rt; console.hear(b'\n').kind, answer, "{rule}");
    expect(rt, &mut console, b"DMPAFT\n", ReplyKind::Ack, b"\x06");
    for byte in &ALL[1..] {
        let _ = console.hear(*byte);
    }
    let start = console.hear(0).begun.expect(rt, "a dump");
    assert_eq!(rt; start.puts, puts, "{rule}");
}

#[test]
fn the_published_rules_hold(rt: HostRuntime) {
    use Event::{Falls, Says, Ticks};
    use ReplyKind::{Code, Nothing, Wake};
    expect_rule(
        &rt,
        rt.alloc(),
        "a dump sleeps at 32 ticks",
        &[Says(DUMP_ALL), Ticks(32, 0)],
        Nothing,
        1,
    );
    expect_rule(
        &rt,
        rt.alloc(),
        "a dump that sleeps puts what it holds",
        &[Says(DUMP_ALL), Falls(1, Due::Held), Ticks(32, 0)],
        Nothing,
        2,
    );
    expect_rule(
        &rt,
        rt.alloc(),
        "a dump is awake at 31 ticks",
        &[Says(DUMP_ALL), Falls(1, Due::Held), Ticks(31, 0)],
        Wake,
        2,
    );
    expect_rule(
        &rt,
        rt.alloc(),
        "a long line is left at 3 ticks",
        &[Says(LONG_LINE), Ticks(3, 0)],
        Wake,
        1,
    );
    expect_rule(
        &rt,
        rt.alloc(),
        "a long line stays at 2 ticks",
        &[Says(LONG_LINE), Ticks(2, 0)],
        Code,
        1,
    );
    expect_rule(
        &rt,
        rt.alloc(),
        "packets come past 32 ticks",
        &[Says(b"LOOP 9\n"), Ticks(40, 8)],
        Nothing,
        1,
    );
    expect_rule(
        &rt,
        rt.alloc(),
        "a record is put in Asleep",
        &[Ticks(32, 0), Falls(1, Due::Put)],
        Nothing,
        2,
    );
    expect_rule(
        &rt,
        rt.alloc(),
        "a record is put in Frame",
        &[Says(b"DMPAFT\n"), Falls(1, Due::Put), Ticks(3, 0)],
        Wake,
        2,
    );
    expect_rule(
        &rt,
        rt.alloc(),
        "a record is put in Looping",
        &[Says(b"LOOP 9\n"), Falls(1, Due::Put)],
        Nothing,
        2,
    );
    expect_rule(
        &rt,
        rt.alloc(),
        "0x1B puts what is held",
        &[Says(DUMP_ALL), Falls(1, Due::Held), Says(b"\x1B")],
        Wake,
        2,
    );
    expect_rule(
        &rt,
        rt.alloc(),
        "the last 0x06 puts it",
        &[Says(DUMP_ALL), Falls(1, Due::Held), Says(b"\x06\x06")],
        Wake,
        2,
    );
    expect_rule(
        &rt,
        rt.alloc(),
        "another byte puts it",
        &[Says(DUMP_ALL), Falls(1, Due::Held), Says(b"x")],
        Code,
        2,
    );
}

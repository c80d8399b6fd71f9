use crate::five_minutes;
use archive_record::Rec52;
use console_model::Due;
use console_tests::new_console;
use loop_packet::LoopPacket;
use schedule_file::{Fates, Schedule, Step};
use serial_link::{Link, Recv, Sent, TalkItem};
use station_base::Stamp;
use station_sim::{Sim, Unseen};
use std::alloc::Global;
use std::process::Abort;
use std::test::Fail;
use value_tests::record_of;

// Room for a page.
const ROOM: usize = 300;

// What is done over a line, and what comes of it.
#[derive(Clone, Copy)]
enum Act {
    Send(&'static [u8]),
    // These bytes come, so many bytes, or none.
    Hear(&'static [u8]),
    HearSome(usize),
    Quiet,
    Harmed(u32),
    Unseen(Option<Unseen>),
    // The record of so many minutes after the first stamp falls due, and this becomes of it.
    Falls(u8, Due),
    // One dump began, with so many records.
    Dumped(u64),
    Idle(u8),
    Finish,
}

use Act::{Dumped, Falls, Finish, Harmed, Hear, HearSome, Idle, Quiet, Send};

// The stamp of so many minutes after the first.
fn stamp_at(minute: u8) -> Option<Stamp> {
    Stamp::from_words(33, u16::from(minute))
}

fn record_at(minute: u8) -> Option<Rec52> {
    record_of(stamp_at(minute)?)
}

// What befalls a round, as the lines of a schedule have it.
fn fates(alloc: Global, lines: &str) -> Option<Fates> {
    let mut text = String::from_str(alloc, "round\n").ok()?;
    text.push_str(lines).ok()?;
    let schedule = Schedule::read(alloc, text.as_bytes(), five_minutes()).ok()?;
    match schedule.steps() {
        [Step::Round { fates, .. }] => fates.copy().ok(),
        _ => None,
    }
}

// A line to a new console.
fn line(alloc: Global) -> Option<Sim> {
    let console = new_console(alloc, five_minutes(), LoopPacket::blank()).ok()?;
    Sim::new(alloc, console).ok()
}

// So many of these bytes come.
fn hear(rt: &impl Abort, sim: &mut Sim, buf: &mut [u8; ROOM], count: usize) {
    assert_eq!(rt; sim.recv(buf), Recv::Got(count));
}

fn perform(rt: &impl Abort, sim: &mut Sim, act: &Act) {
    let mut buf = [0; ROOM];
    match act {
        Send(bytes) => {
            assert!(rt; !bytes.is_empty());
            assert_eq!(rt; sim.send(bytes), Sent::Done);
        }
        Hear(bytes) => {
            hear(rt, sim, &mut buf, bytes.len());
            assert!(rt; buf.starts_with(bytes));
        }
        HearSome(count) => hear(rt, sim, &mut buf, *count),
        Quiet => assert_eq!(rt; sim.recv(&mut buf), Recv::Quiet),
        Harmed(count) => assert_eq!(rt; sim.harmed(), *count),
        Act::Unseen(unseen) => assert_eq!(rt; sim.unseen(), *unseen),
        Falls(minute, due) => {
            let record = record_at(*minute).expect(rt, "a record");
            assert_eq!(rt; sim.due(record), *due);
        }
        Dumped(puts) => {
            assert_eq!(rt; sim.dumps().len(), 1);
            assert_eq!(rt; sim.dumps().first().map(|dump| dump.puts), Some(*puts));
        }
        Idle(ticks) => assert_eq!(rt; sim.idle(*ticks), Sent::Done),
        Finish => sim.finish(),
    }
}

// A round over a new line, of which the lines of a schedule say what befalls it.
fn play(rt: &impl Abort, alloc: Global, lines: &str, acts: &[Act]) -> Result<Sim, Fail> {
    let mut sim = line(alloc).ok_or("no line")?;
    sim.start(fates(alloc, lines).ok_or("no fates")?);
    for step in acts {
        perform(rt, &mut sim, step);
    }
    Ok(sim)
}

// The host's first message is named.
const FIRST: Option<Unseen> = Some(Unseen {
    from_host: true,
    number: 1,
});

const WOKEN: &[u8] = b"\n\r";

#[test]
fn replies_come_late_and_damaged(rt: HostRuntime) -> Result<(), Fail> {
    let cases: [(&str, &[Act]); 5] = [
        // A reply is late, cut, and lost, and then the message is; behind the round comes what was sent.
        (
            "reply 1 late 2 0\nreply 2 cut 1\nreply 3 lost\nhost 4 lost\n",
            &[
                Send(b"\n"),
                Quiet,
                Quiet,
                Hear(WOKEN),
                Quiet,
                Harmed(0),
                Send(b"\n"),
                Hear(b"\n"),
                Quiet,
                Harmed(1),
                Send(b"\n"),
                Quiet,
                Send(b"\n"),
                Quiet,
                Harmed(3),
                Act::Unseen(None),
                Finish,
                Send(b"\n"),
                Hear(WOKEN),
                Quiet,
            ],
        ),
        // A damaged command is obeyed.
        (
            "host 1 drop 0 1\n",
            &[
                Send(b"XTEST\n"),
                Act::Unseen(FIRST),
                Hear(b"\n\rTEST\n\r"),
                Quiet,
            ],
        ),
        // So is this one, and its answer passes for whole too: the message is named.
        (
            "host 1 drop 0 1\nreply 1 flip 0 0C\n",
            &[Send(b"XTEST\n"), Harmed(2), Act::Unseen(FIRST)],
        ),
        // What lies beyond the end of a reply harms nothing.
        (
            "reply 1 cut 3\nreply 2 flip 2 FF\nreply 3 late 1 0\nreply 3 cut 1\n",
            &[
                Send(b"\n"),
                Hear(WOKEN),
                Quiet,
                Send(b"\n"),
                Hear(WOKEN),
                Quiet,
                Harmed(0),
                Send(b"\n"),
                Quiet,
                Hear(b"\n"),
                Quiet,
                Harmed(1),
            ],
        ),
        // A page waits twice before its byte 200.
        (
            "reply 4 late 2 200\n",
            &[
                Falls(5, Due::Put),
                Send(b"\n"),
                Hear(WOKEN),
                Send(b"DMPAFT\n"),
                Hear(&[6]),
                Send(&[0; 6]),
                HearSome(7),
                Send(&[6]),
                HearSome(200),
                Quiet,
                Quiet,
                HearSome(67),
            ],
        ),
    ];
    for (lines, acts) in cases {
        play(&rt, rt.alloc(), lines, acts)?;
    }
    Ok(())
}

#[test]
fn records_fall_due_with_their_message(rt: HostRuntime) -> Result<(), Fail> {
    let newest = stamp_at(15).ok_or("no stamp")?;
    let acts = [
        Falls(5, Due::Put),
        Send(b"DMPAFT\n"),
        Hear(&[6]),
        Quiet,
        Send(&[0; 6]),
        Dumped(2),
        Finish,
        Falls(15, Due::NotRising(newest)),
        Idle(40),
    ];
    let lines = "mid 1 2000-01-01 00:10\nmid 9 2000-01-01 00:15\n";
    let sim = play(&rt, rt.alloc(), lines, &acts)?;
    let first = TalkItem::Said {
        byte: b'D',
        ends: false,
    };
    assert_eq!(rt; sim.talk().first().copied(), Some(first));
    Ok(())
}

#[test]
fn a_console_sleeps_from_the_32nd_tick_on(rt: HostRuntime) -> Result<(), Fail> {
    let cases: [(&str, &[Act]); 3] = [
        ("", &[Idle(31), Send(b"\n"), Hear(WOKEN), Quiet]),
        ("", &[Idle(32), Send(b"\n"), Quiet]),
        ("", &[Idle(33), Send(b"\n"), Quiet]),
    ];
    for (lines, acts) in cases {
        play(&rt, rt.alloc(), lines, acts)?;
    }
    Ok(())
}

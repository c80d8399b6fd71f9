use crate::five_minutes;
use schedule_file::{Fate, Schedule, Step, Stop};
use std::alloc::Global;
use std::test::Fail;

// The schedule of a text.
fn read(alloc: Global, text: &[u8]) -> Option<Schedule> {
    Schedule::read(alloc, text, five_minutes()).ok()
}

#[test]
fn a_schedule_has_its_steps(rt: HostRuntime) -> Result<(), Fail> {
    let schedule = read(rt.alloc(), b"idle 40\ndue 2024-07-01 00:05\nround").ok_or("refused")?;
    assert_eq!(rt; schedule.records(), 1);
    assert_eq!(rt; schedule.period().minutes(), 5);
    match schedule.steps() {
        [
            Step::Idle(40),
            Step::Due(record),
            Step::Round { fates, stop: None },
        ] => {
            assert_eq!(rt; record.stamp().text(), *b"2024-07-01 00:05");
            assert!(rt; fates.host.is_empty() && fates.mids.is_empty());
        }
        _ => assert!(rt; false),
    }
    Ok(())
}

#[test]
fn details_belong_to_the_last_round(rt: HostRuntime) -> Result<(), Fail> {
    let text =
        b"round\nidle 1\nround\nmid 3 2024-07-01 00:05 outTemp=-5\ndue 2024-07-01 00:10\nstop 2 7\nhost 4 flip 1 0aFF00\n";
    let schedule = read(rt.alloc(), text).ok_or("refused")?;
    assert_eq!(rt; schedule.records(), 2);
    match schedule.steps() {
        [
            Step::Round { stop: None, .. },
            Step::Idle(1),
            Step::Round {
                fates,
                stop: Some(stop),
            },
            Step::Due(_),
        ] => {
            assert_eq!(rt; *stop, Stop { change: 2, pick: 7 });
            let mid = fates.mids.first().ok_or("no mid")?;
            assert_eq!(rt; mid.number, 3);
            assert!(rt; mid.rec.bytes()[4..6] == [0xFB, 0xFF]);
            match fates.host.get(&4).ok_or("no fate")? {
                Fate::Flipped { place: 1, masks } => assert!(rt;
                    masks.as_slice() == [0x0A, 0xFF, 0x00].as_slice()
                ),
                _ => assert!(rt; false),
            }
        }
        _ => assert!(rt; false),
    }
    Ok(())
}

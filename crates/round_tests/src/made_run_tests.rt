use crate::five_minutes;
use made_run::made_schedule;
use schedule_file::{Fate, Fates, Schedule, Step};
use std::alloc::Global;
use std::test::Fail;

// What becomes of the fourth messages of a round: whether that of the host is lost, to how many bytes the reply is cut,
// how many waits it is late and from which place on; and of how many messages and records the round speaks.
fn fourth_messages(fates: &Fates) -> (bool, Option<u32>, Option<(u8, u32)>, [usize; 4]) {
    let lost = matches!(fates.host.get(&4), Some(Fate::Lost));
    let cut = match fates.replies.get(&4) {
        Some(Fate::Cut(bytes)) => Some(*bytes),
        _ => None,
    };
    let late = fates.lates.get(&4).map(|late| (late.waits, late.place));
    let named = [
        fates.host.len(),
        fates.replies.len(),
        fates.lates.len(),
        fates.mids.len(),
    ];
    (lost, cut, late, named)
}

// Whether both let the same record fall due, or make a round in which the same befalls the fourth messages.
fn are_alike(one: &Step, other: &Step) -> bool {
    match (one, other) {
        (Step::Due(first), Step::Due(second)) => first.bytes() == second.bytes(),
        (
            Step::Round { fates, stop },
            Step::Round {
                fates: others,
                stop: another,
            },
        ) => stop == another && fourth_messages(fates) == fourth_messages(others),
        _ => false,
    }
}

// The values are drawn by hand: each draw multiplies by 1,103,515,245, adds 12,345, and keeps 31 bits.
#[test]
fn made_schedules_have_these_lines(rt: HostRuntime) -> Result<(), Fail> {
    let alloc = rt.alloc();
    let five = five_minutes();
    let rows = [
        (0, "outTemp=-200 rain=0\nround\nhost 4 lost\nround\n"),
        (1, "outTemp=638 rain=1\nround\nround\n"),
        (2, "outTemp=708 rain=2\nround\nstop 3 2\nround\n"),
        (3, "outTemp=547 rain=0\nround\nreply 4 cut 100\nround\n"),
        (6, "outTemp=526 rain=0\nround\nreply 4 late 2 50\nround\n"),
        (232, "outTemp=-105 rain=0\nround\nstop 1 0\nround\n"),
        (762, "outTemp=301 rain=1\nround\nstop 12 4\nround\n"),
        (917, "outTemp=799 rain=2\nround\nround\n"),
    ];
    for (seed, values) in rows {
        let text = format!(in alloc; "due 2024-01-01 00:05 {values}")?;
        let read = Schedule::read(alloc, text.as_bytes(), five)
            .ok()
            .ok_or("a schedule")?;
        let made = made_schedule(alloc, five, seed, 1)?;
        assert_eq!(rt; made.len(), 3, "seed {seed}");
        let alike = made
            .iter()
            .zip(read.steps())
            .all(|(one, other)| are_alike(one, other));
        assert!(rt; alike, "seed {seed}");
    }
    Ok(())
}

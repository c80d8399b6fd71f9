use disk_model::{Disk, Disked, MemDisk};
use gated_log::{Append, GatedLog, LogStart, Purpose, SLOT_SIZE, Version, Visitor};
use std::process::Abort;
use std::test::Fail;

const PAIR: [u8; 2 * SLOT_SIZE] = [0; 2 * SLOT_SIZE];

const LONGEST: usize = 1_000;

// Bytes of 300 batches of one slot, behind a head and before a closed gate.
const MANY: usize = SLOT_SIZE * 301 + 1;

// A visitor that counts the slots.
#[derive(Drop)]
struct Counted {
    slots: u64,
}

impl Visitor for Counted {
    ghost use Rattle.storage_tests.specs.Counted.{counting};

    ghost visits = { counting (λ counted. counted.slots) };

    fn visit(&mut self, _version: Version, _place: u64, _slot: &[u8; SLOT_SIZE]) {
        self.slots += 1;
    }
}

// The log of a disk, if it has one, with as many slots as were shown.
fn recovered<D: Disk>(
    rt: &impl Abort,
    disk: &mut D,
    purpose: Purpose,
) -> Result<Option<GatedLog>, Fail> {
    assert!(rt; disk.moment() < 100);
    let mut counted = Counted { slots: 0 };
    match GatedLog::recover(disk, purpose, &mut counted) {
        LogStart::Log(log) => {
            assert_eq!(rt; log.slots(), counted.slots);
            Ok(Some(log))
        }
        LogStart::DiskFault => Ok(None),
        _ => Err("no log")?,
    }
}

// How many slots a recovery for writing finds.
fn slots_of<D: Disk>(rt: &impl Abort, disk: &mut D) -> Result<u64, Fail> {
    match recovered(rt, disk, Purpose::Write)? {
        Some(log) => Ok(log.slots()),
        None => Err("no log")?,
    }
}

// Makes an archive, appends two slots, recovers it for reading and reads a slot; which of these met a fault.
fn step_at_fault(rt: &impl Abort, disk: &mut MemDisk) -> Result<u64, Fail> {
    let Some(mut log) = recovered(rt, disk, Purpose::Write)? else {
        return Ok(1);
    };
    assert!(rt; disk.moment() < 100);
    if log.append(disk, &PAIR) != Append::Done {
        return Ok(2);
    }
    let Some(log) = recovered(rt, disk, Purpose::Read)? else {
        return Ok(3);
    };
    assert_eq!(rt; log.slots(), 2);
    match log.slot(disk, 1, &mut [0; SLOT_SIZE]) {
        Disked::Failed => Ok(4),
        Disked::Done => Ok(0),
    }
}

#[test]
fn each_call_of_the_disk_fails_in_turn(rt: HostRuntime) -> Result<(), Fail> {
    let steps = [1, 1, 1, 1, 2, 2, 2, 2, 3, 3, 3, 3, 3, 4];
    for (i, step) in steps.iter().enumerate() {
        let mut disk = MemDisk::new(rt.alloc(), LONGEST, 20, 2 * LONGEST)?;
        disk.fail_at(i as u64 + 1);
        assert_eq!(rt; step_at_fault(&rt, &mut disk)?, *step, "call {i}");
        let slots = if i < 7 { 0 } else { 2 };
        assert_eq!(rt; slots_of(&rt, &mut disk)?, slots, "call {i}");
    }
    Ok(())
}

// An archive of 300 batches of one slot each.
fn batches_of_one() -> [u8; MANY] {
    let mut file = [0; MANY];
    file[..8].copy_from_slice(b"DVARCH02");
    for n in 1..301 {
        file[SLOT_SIZE * n] = 1;
        file[SLOT_SIZE * n + 2] = 1;
    }
    file
}

#[test]
fn a_recovery_follows_many_batches_by_one_read(rt: HostRuntime) -> Result<(), Fail> {
    // The length, the head, 280 slots, twenty, what stands behind them, and the gate there.
    for (call, ends) in [(6, false), (7, true)] {
        let mut disk = MemDisk::new(rt.alloc(), MANY, 20, MANY)?;
        assert!(rt; disk.moment() == 0);
        assert!(rt; disk.write_at(0, &batches_of_one()) == Disked::Done);
        disk.fail_at(call);
        match recovered(&rt, &mut disk, Purpose::Read)? {
            Some(log) => assert!(rt; ends && log.slots() == 300),
            None => assert!(rt; !ends, "call {call}"),
        }
    }
    Ok(())
}

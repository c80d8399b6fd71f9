ghost use Rattle.std.specs.Prelude.{ℕ, List, IfOk};
ghost use Rattle.eeprom_map.specs.Memory.{new_memory};
ghost use Rattle.loop_packet.specs.declared.packet.LoopPacket.{LoopPacket};
ghost use Rattle.replay_laws.specs.Replay.{start};
ghost use Rattle.schedule_replay.specs.Replayed.{IsNewDisk};
ghost use Rattle.schedule_replay.specs.Standing.{LineAt};

use causes::OutOfMemory;
use console_model::Console;
use disk_model::{MemDisk, Stopping};
use eeprom_map::Eeprom;
use gated_log::SLOT_SIZE;
use loop_packet::LoopPacket;
use station_base::Period;
use station_sim::Sim;
use std::alloc::Global;

/// A line to a new console of this period, which sends this packet. `OutOfMemory` where there is no memory for the
/// console.
pub fn new_line(alloc: Global, period: Period, packet: LoopPacket) -> Result<Sim, OutOfMemory>
    ensures { IfOk result (λ line. LineAt (start (new_memory period) packet) line) }
{
    let eeprom = Eeprom::new(alloc, period)?;
    let console = Console::new(alloc, eeprom, packet)?;
    Sim::new(alloc, console)
}

// The bytes of a file that is an archive without rows.
const EMPTY_BYTES: usize = SLOT_SIZE + 1;

// The most bytes of the file that a record can take: its own slot, and those of a day's summary before it.
const RECORD_BYTES: usize = 14 * SLOT_SIZE;

// The most openings and rounds of a schedule.
const TURNS: usize = 200;

// The most changes of an opening: a sync, and if the file is made anew a write and a sync.
const OPENING_CHANGES: usize = 3;

// The changes of a batch, which has a record or more.
const BATCH_CHANGES: usize = 4;

// The changes of all openings and rounds, each with an opening and a batch that is cut short, and of the last opening.
const TURN_CHANGES: usize = TURNS * (OPENING_CHANGES + BATCH_CHANGES) + OPENING_CHANGES;

// Room for the bytes that all openings write, far more than they take.
const OPENING_BYTES: usize = 2_500_000;

// The most bytes that a record can have written: those of the file, and the gate of its batch.
const RECORD_WRITES: usize = RECORD_BYTES + 1;

/// An empty disk with room for a run of so many records. `OutOfMemory` where there is no memory for that room.
pub fn new_disk(alloc: Global, records: u32) -> Result<Stopping<MemDisk>, OutOfMemory>
    ensures { IfOk result (λ disk. (eeprom : List ℕ) (packet : LoopPacket) → IsNewDisk records eeprom packet disk) }
{
    let records = records as usize;
    let disk = MemDisk::new(
        alloc,
        EMPTY_BYTES + RECORD_BYTES * records,
        TURN_CHANGES + BATCH_CHANGES * records,
        OPENING_BYTES + RECORD_WRITES * records,
    )?;
    Ok(Stopping::new(disk))
}

ghost use Rattle.console_model.specs.Console.{fresh_console};
ghost use Rattle.console_model.specs.Standing.{ConsoleStandsFor};
ghost use Rattle.eeprom_map.specs.Memory.{new_memory};
ghost use Rattle.std.specs.Prelude.{IfOk};

use console_model::Console;
use eeprom_map::Eeprom;
use loop_packet::LoopPacket;
use station_base::{OutOfMemory, Period};
use std::alloc::Global;

/// A new console that writes records at this period, and answers `LOOP` by this packet.
pub fn new_console(
    alloc: Global,
    period: Period,
    packet: LoopPacket,
) -> Result<Console, OutOfMemory>
    ensures { IfOk result (λ console. ConsoleStandsFor console (fresh_console (new_memory period) packet)) }
{
    let eeprom = Eeprom::new(alloc, period)?;
    Console::new(alloc, eeprom, packet)
}

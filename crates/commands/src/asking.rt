ghost use Rattle.std.specs.Prelude.{◌≡◌, ◌≤◌, [], true, length};
ghost use Rattle.console_tasks.specs.Memory.{AreWithin};
ghost use Rattle.station_base.specs.ClockTime.{can_be_shown};
ghost use Rattle.command_words.specs.declared.task.Task.{Task};
ghost use Rattle.command_words.specs.Possible.{CanBeMade};
ghost use Rattle.commands.specs.TaskRun.{TaskGives};

use crate::task_text::{push_clock, push_numbered, push_packet};
use arrayvec::ArrayVec;
use command_words::{MOST_BYTES, Task};
use console_tasks::{
    MOST_PACKETS, TaskEnd, get_time, loop_packets, read_eeprom, set_period, set_time, station_kind,
    write_eeprom,
};
use run_output::{Text, push_memory};
use serial_link::Link;
use station_base::{ClockTime, Period, push_bytes};

/// Makes a task of the console, and appends what it gives where it is done.
pub fn ask<L: Link>(task: &Task, link: &mut L, text: &mut Text) -> TaskEnd
    requires possible { CanBeMade task.now }
    requires empty { text.old.items ≡ [] }
    ensures { TaskGives L.traffic task.now link.old result text.new.items link.new }
{
    match task {
        Task::Packets(count) => take_packets(*count, link, text),
        Task::ReadMemory { at, count } => read_memory(*at, *count, link, text),
        Task::WriteMemory { at, bytes } => write_memory(*at, bytes, link, text),
        Task::ReadClock => read_clock(link, text),
        Task::SetClock(time) => set_clock(time, link, text),
        Task::SetPeriod(period) => change_period(*period, link, text),
        Task::Kind => read_kind(link, text),
    }
}

// Takes so many packets, and appends the line of each.
fn take_packets<L: Link>(count: u8, link: &mut L, text: &mut Text) -> TaskEnd
    requires some { 1 ≤ count }
    requires most { count ≤ MOST_PACKETS }
    requires empty { text.old.items ≡ [] }
    ensures { TaskGives L.traffic (Task.Packets count) link.old result text.new.items link.new }
{
    let mut packets = ArrayVec::new();
    let end = loop_packets(link, count, &mut packets);
    let taken = packets.as_slice();
    for packet in taken {
        push_packet(text, packet);
    }
    end
}

// Reads so many bytes of the memory from a place on.
fn read_memory<L: Link>(at: u16, count: u8, link: &mut L, text: &mut Text) -> TaskEnd
    requires within { AreWithin at count }
    requires empty { text.old.items ≡ [] }
    ensures { TaskGives L.traffic (Task.ReadMemory at count) link.old result text.new.items link.new }
{
    let mut room = [0; MOST_BYTES];
    let bytes = &mut room[..usize::from(count)];
    let end = read_eeprom(link, at, bytes);
    push_memory(text, bytes);
    end
}

// Writes bytes of the memory from a place on.
fn write_memory<L: Link>(
    at: u16,
    bytes: &ArrayVec<u8, MOST_BYTES>,
    link: &mut L,
    text: &mut Text,
) -> TaskEnd
    requires within { AreWithin at (length bytes.now.items) }
    requires empty { text.old.items ≡ [] }
    ensures { TaskGives L.traffic (Task.WriteMemory at bytes.now) link.old result text.new.items link.new }
{
    push_numbered(text, b"written ", bytes.len() as u16);
    write_eeprom(link, at, bytes)
}

// Reads what the clock shows.
fn read_clock<L: Link>(link: &mut L, text: &mut Text) -> TaskEnd
    requires { text.old.items ≡ [] }
    ensures { TaskGives L.traffic Task.ReadClock link.old result text.new.items link.new }
{
    let mut time = ClockTime {
        year: 1900,
        month: 1,
        day: 1,
        hour: 0,
        minute: 0,
        second: 0,
    };
    let end = get_time(link, &mut time);
    push_clock(text, &time);
    end
}

// Sets the clock.
fn set_clock<L: Link>(time: &ClockTime, link: &mut L, text: &mut Text) -> TaskEnd
    requires civil { can_be_shown time.now ≡ true }
    requires empty { text.old.items ≡ [] }
    ensures { TaskGives L.traffic (Task.SetClock time.now) link.old result text.new.items link.new }
{
    push_bytes(text, b"time set\n");
    set_time(link, time)
}

// Sets the period.
fn change_period<L: Link>(period: Period, link: &mut L, text: &mut Text) -> TaskEnd
    requires { text.old.items ≡ [] }
    ensures { TaskGives L.traffic (Task.SetPeriod period) link.old result text.new.items link.new }
{
    push_numbered(text, b"period ", period.minutes());
    set_period(link, period)
}

// Reads which kind of station it is.
fn read_kind<L: Link>(link: &mut L, text: &mut Text) -> TaskEnd
    requires { text.old.items ≡ [] }
    ensures { TaskGives L.traffic Task.Kind link.old result text.new.items link.new }
{
    let mut kind = 0;
    let end = station_kind(link, &mut kind);
    push_numbered(text, b"kind ", u16::from(kind));
    end
}

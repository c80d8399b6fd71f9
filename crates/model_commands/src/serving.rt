ghost use Rattle.std.specs.Prelude.{◌≡◌, IfErr, IfOk};
ghost use Rattle.command_words.specs.Command.{console_names};
ghost use Rattle.model_commands.specs.ConsoleRun.{readied, served_line, serves, serves_files};
ghost use Rattle.run_output.specs.Output.{no_memory};
ghost use Rattle.run_output.specs.Outside.{means};
ghost use Rattle.schedule_steps.specs.Accepted.{ScheduleIsAccepted};
ghost use Rattle.schedule_replay.specs.Replayed.{steps_in};

use crate::judging::read_schedule;
use crate::packets::blank_packet;
use command_words::ConsoleWords;
use console_model::Console;
use console_server::{ServeEnd, Served, make_ready, serve};
use disk_model::Disk;
use eeprom_map::Eeprom;
use itoa::Buffer;
use run_output::{Ending, Outside, Status, Text, connect, settle};
use schedule_file::Schedule;
use serial_link::{Link, Side};
use station_base::push_bytes;
use station_io::{Files, Sink};
use std::alloc::Global;

/// Serves a new modelled console at an address for so many turns. One file holds the settings, whose period it has, and
/// another the schedule, whose steps before the first round it has behind it. Both are read before a call is waited for.
#[inline(never)]
pub fn serve_files<F: Files, K: Sink, L: Link, D: Disk>(
    alloc: Global,
    words: &ConsoleWords<'_>,
    outside: &mut Outside<F, K, L, D>,
) -> Result<Text, Ending>
    ensures { serves_files (means F.shelf K.outlet L.traffic D.medium)
        (console_names words.now) outside.old result outside.new }
{
    let settings = settle(alloc, &mut outside.files, words.settings)?;
    let schedule = read_schedule(alloc, &mut outside.files, words.schedule, settings.period())?;
    let mut console = ready_console(alloc, &schedule)?;
    connect(&mut outside.link, Side::Serve, words.address)?;
    serve_console(&mut console, words.turns, &mut outside.link)
}

// A new console of the schedule's period with the blank packet, which has the steps before the first round behind it.
fn ready_console(alloc: Global, schedule: &Schedule) -> Result<Console, Ending>
    requires { ScheduleIsAccepted schedule.now }
    ensures ready { IfOk result (readied schedule.now.period (steps_in schedule.now)) }
    ensures none { IfErr result (λ output. output ≡ no_memory) }
{
    let Ok(eeprom) = Eeprom::new(alloc, schedule.period()) else {
        return Err(Ending::silent(Status::OutOfMemory));
    };
    let Ok(mut console) = Console::new(alloc, eeprom, blank_packet()) else {
        return Err(Ending::silent(Status::OutOfMemory));
    };
    make_ready(&mut console, schedule.steps(), schedule.period());
    Ok(console)
}

// Serves the console over the link that is there.
fn serve_console<L: Link>(console: &mut Console, turns: u32, link: &mut L) -> Result<Text, Ending>
    ensures { serves L.traffic console.old turns link.old result link.new }
{
    let mut count = Served { heard: 0, said: 0 };
    match serve(console, link, turns, &mut count) {
        ServeEnd::Done => Ok(line_of(&count)),
        ServeEnd::LinkFault => Err(Ending::with_line(b"link fault\n", Status::LinkFault)),
        ServeEnd::OutOfMemory => Err(Ending::silent(Status::OutOfMemory)),
    }
}

// `served HEARD SAID`.
fn line_of(count: &Served) -> Text
    ensures { result.items ≡ served_line count.now }
{
    let mut line = Text::new();
    push_bytes(&mut line, b"served ");
    push_bytes(&mut line, Buffer::new().format(count.heard).as_bytes());
    push_bytes(&mut line, b" ");
    push_bytes(&mut line, Buffer::new().format(count.said).as_bytes());
    push_bytes(&mut line, b"\n");
    line
}

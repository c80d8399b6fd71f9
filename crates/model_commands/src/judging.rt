ghost use Rattle.std.specs.Prelude.{◌≡◌, ◌≤◌, IfOk, length};
ghost use Rattle.model_commands.specs.ScheduleReading.{SaysSchedule, bad_schedule, reads_schedule};
ghost use Rattle.schedule_steps.specs.Accepted.{ScheduleIsAccepted};

use run_output::{Ending, Status, Text, read};
use schedule_file::{Schedule, ScheduleFault};
use schedule_steps::accepted;
use station_base::{Period, push_bytes, push_number};
use station_fleet::a_schedule_has_few_steps;
use station_io::Files;
use std::alloc::Global;

/// Reads a file of a schedule, for a console of this period.
pub fn read_schedule<F: Files>(
    alloc: Global,
    files: &mut F,
    name: &str,
    period: Period,
) -> Result<Schedule, Ending>
    ensures reads { reads_schedule F.shelf name.now period files.old result files.new }
    ensures accepted { IfOk result (λ schedule. ScheduleIsAccepted schedule) }
    ensures period { IfOk result (λ schedule. schedule.period ≡ period) }
    ensures few { IfOk result (λ schedule. length schedule.steps.items ≤ 10000) }
{
    let text = read(alloc, files, name)?;
    schedule_in(alloc, &text, period)
}

// The schedule that a text says.
fn schedule_in(alloc: Global, text: &[u8], period: Period) -> Result<Schedule, Ending>
    ensures exact { SaysSchedule text.now period result }
    ensures accepted { IfOk result (λ schedule. ScheduleIsAccepted schedule) }
    ensures period { IfOk result (λ schedule. schedule.period ≡ period) }
    ensures few { IfOk result (λ schedule. length schedule.steps.items ≤ 10000) }
{
    match Schedule::read(alloc, text, period) {
        Ok(schedule) => {
            accepted(&schedule);
            a_schedule_has_few_steps();
            Ok(schedule)
        }
        Err(ScheduleFault::OutOfMemory) => Err(Ending::silent(Status::OutOfMemory)),
        Err(ScheduleFault::Line { line, kind }) => Err(bad_line(line, kind)),
    }
}

// The ending of a schedule of which this line has a fault of this kind.
#[tactic(auto, using(station_base::proofs::NumberWidths::number_text_width))]
fn bad_line(line: u32, kind: u8) -> Ending
    ensures { result ≡ bad_schedule (record { line = line; kind = kind }) }
{
    let mut text = Text::new();
    push_bytes(&mut text, b"schedule line ");
    push_number(&mut text, line);
    push_bytes(&mut text, b" fault ");
    push_number(&mut text, u32::from(kind));
    push_bytes(&mut text, b"\n");
    Ending::new(text, Status::BadSchedule)
}

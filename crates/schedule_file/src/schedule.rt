ghost use Rattle.std.specs.Prelude.{◌≡◌, IfOk};
ghost use Rattle.schedule_file.specs.Reading.{said_by_text};
ghost use Rattle.schedule_file.specs.Steps.{records_in_steps, steps_seen};

mod entries;
mod fates;
mod form;
mod forms;
mod names;
mod naming;
mod numbers;
mod pieces;
mod reader;
mod refusal;
mod stamps;
pub mod step;
mod taking;
mod turn;

use pieces::cut_line;
use reader::Reader;
use refusal::Refusal;
use station_base::Period;
use std::alloc::Global;
use step::Step;

/// Why a text is no schedule.
#[derive(Clone, Copy, Debug, PartialEq, Eq)]
pub enum ScheduleFault {
    /// Memory was refused, which says nothing of the text.
    OutOfMemory,
    /// The first line that has a fault, counted from 1, and the least of the kinds that it has.
    Line { line: u32, kind: u8 },
}

/// What falls due, what befalls on the line, and when rounds begin.
#[derive(Drop)]
pub struct Schedule {
    steps: Vec<Step>,
    records: u32,
    period: Period,
    ghost counted: { records ≡ records_in_steps (steps_seen period steps.items) },
}

impl Schedule {
    ghost use Rattle.schedule_file.specs.Answer.{ScheduleReadsAs};

    /// Reads a schedule for a console that writes records at this period.
    pub fn read(alloc: Global, bytes: &[u8], period: Period) -> Result<Schedule, ScheduleFault>
        ensures said { ScheduleReadsAs (said_by_text bytes.now period) result }
        ensures period { IfOk result (λ schedule. schedule.period ≡ period) }
    {
        let mut reader = Reader::new(alloc, period);
        let mut rest = bytes;
        let mut number = 0;
        while !rest.is_empty() {
            number += 1;
            let (line, more) = cut_line(rest);
            match reader.line(number, line) {
                Ok(()) => {}
                Err(Refusal::Kind(kind)) => return Err(ScheduleFault::Line { line: number, kind }),
                Err(Refusal::OutOfMemory) => return Err(ScheduleFault::OutOfMemory),
            }
            rest = more;
        }
        let records = reader.records;
        match reader.finish() {
            Ok(steps) => Ok(Schedule {
                steps,
                records,
                period,
            }),
            Err(_) => Err(ScheduleFault::OutOfMemory),
        }
    }

    /// The steps in the order in which they are taken.
    pub fn steps(&self) -> &[Step]
        ensures { result.now ≡ self.now.steps.items }
    {
        &self.steps
    }

    /// How many records fall due, those of a run and of a round included.
    pub fn records(&self) -> u32
        ensures { result ≡ records_in_steps (steps_seen self.now.period self.now.steps.items) }
    {
        self.records
    }

    /// The period that the schedule was read for.
    pub fn period(&self) -> Period
        ensures { result ≡ self.now.period }
    {
        self.period
    }
}

ghost use Rattle.std.specs.Prelude.{◌≡◌, ◌<◌, ℕ, List, [], length, slice_index_or};
ghost use Rattle.std.specs.List.{AllByRecursion};
ghost use Rattle.archive_record.specs.Reading.{reading};
ghost use Rattle.archive_record.specs.Record.{IsRecord};
ghost use Rattle.archive_record.specs.declared.record_read.RecordRead.TheVariants.{Row as ReadRow};
ghost use Rattle.schedule_steps.specs.Accepted.{HasRecord, ScheduleIsAccepted};
ghost use Rattle.schedule_steps.specs.Runs.{IsRun, ReadsLater, run_records};
ghost use Rattle.station_base.specs.declared.row.Row.{Row};
ghost use Rattle.station_base.specs.Period.{IsPeriod};
ghost use Rattle.schedule_file.specs.Answer.{ScheduleReadsAs};
ghost use Rattle.schedule_file.specs.Reading.{said_by_text};
ghost use Rattle.schedule_file.specs.declared.schedule.Schedule.{Schedule};

use schedule_file::{Schedule, Step};

/// A schedule that some text says, for a period that a console has, keeps the rules of a run.
pub fn accepted_schedules()
    ensures { (bytes : List ℕ) (schedule : Schedule) → IsPeriod schedule.period
        → AllByRecursion HasRecord schedule.steps.items
        → ScheduleReadsAs (said_by_text bytes schedule.period) (Ok schedule) → ScheduleIsAccepted schedule }
{}

/// A run has so many records, each a period after the one before, and all with the values of the first.
pub fn what_a_run_is()
    ensures count { (period count : ℕ) (first : List ℕ) → length (run_records period first count) ≡ count }
    ensures records { (period count place : ℕ) (first : List ℕ) (row : Row) → IsRecord first
        → reading first period ≡ ReadRow row
        → IsRun period first count → place < count
        → ReadsLater period place row (slice_index_or (run_records period first count) place []) }
{}

/// What holds of a schedule that was read from some text. The schedule is looked at, and nothing else happens.
pub fn accepted(schedule: &Schedule)
    requires { (bytes : List ℕ) × ScheduleReadsAs (said_by_text bytes schedule.now.period) (Ok schedule.now) }
    ensures { ScheduleIsAccepted schedule.now }
{
    schedule.period().minutes();
    records_known(schedule.steps());
}

/// Each record of the steps has its fifty-two bytes. The steps are looked at, and nothing else happens.
pub fn records_known(steps: &[Step])
    ensures { AllByRecursion HasRecord steps.now }
{
    for step in steps {
        record_known(step);
    }
}

// A record of the step has its bytes, as it says itself.
fn record_known(step: &Step)
    ensures { HasRecord step.now }
{
    match step {
        Step::Due(rec) | Step::Run { first: rec, .. } => {
            rec.bytes();
        }
        Step::Idle(_) | Step::Open(_) | Step::Round { .. } => {}
    }
}

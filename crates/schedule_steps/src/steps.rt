ghost use Rattle.std.specs.Prelude.{◌≡◌, OnOk};
ghost use Rattle.schedule_steps.specs.Accepted.{IsInRange};
ghost use Rattle.schedule_steps.specs.Runs.{IsRun, run_records};
ghost use Rattle.schedule_steps.specs.Steps.{passed, step_of};
ghost use Rattle.schedule_file.specs.Lists.{no_fates};
ghost use Rattle.station_sim.specs.Line.{Line, waited};
ghost use Rattle.schedule_file.specs.Lists.{fates_of};
ghost use Rattle.station_sim.specs.Standing.{SimStandsFor};

use archive_record::Rec52;
use causes::OutOfMemory;
use schedule_file::Step;
use serial_link::Sent;
use station_base::Period;
use station_sim::Sim;

/// Lets a record or those of a run fall due, or ticks pass; a step that opens a session or makes a round does nothing
/// here. `OutOfMemory` comes where there was no room for what a tick's reply brings.
pub fn wait(line: &mut Sim, step: &Step, period: Period) -> Result<(), OutOfMemory>
    requires range { IsInRange period step.now }
    requires fates { fates_of line.old.fates ≡ no_fates }
    ensures stands { OnOk result ((w : Line) → SimStandsFor line.old w
        → SimStandsFor line.new (passed (step_of period step.now) w)) }
    ensures fates { fates_of line.new.fates ≡ fates_of line.old.fates }
    ensures talk { line.new.talk.items ≡ line.old.talk.items }
{
    match step {
        Step::Due(rec) => {
            line.due(*rec);
            Ok(())
        }
        Step::Run { first, count } => {
            run_falls_due(line, first, *count, period);
            Ok(())
        }
        Step::Idle(ticks) => match line.idle(*ticks) {
            Sent::Done => Ok(()),
            Sent::Failed | Sent::OutOfMemory => Err(OutOfMemory),
        },
        Step::Open(_) | Step::Round { .. } => Ok(()),
    }
}

/// Lets the records of a run fall due: the first, and each next one a period later with the same values.
pub fn run_falls_due(line: &mut Sim, first: &Rec52, count: u32, period: Period)
    requires stamps { IsRun period first.now count }
    ensures stands { (w : Line) → SimStandsFor line.old w
        → SimStandsFor line.new (waited (run_records period first.now count) w) }
    ensures fates { fates_of line.new.fates ≡ fates_of line.old.fates }
    ensures talk { line.new.talk.items ≡ line.old.talk.items }
{
    let mut next = Some(*first);
    for _ in 0..count {
        let Some(rec) = next else {
            return;
        };
        line.due(rec);
        next = rec.moved_on(period);
    }
}

ghost use Rattle.console_model.specs.Console as model;
ghost use Rattle.console_model.specs.Standing.{ConsoleStandsFor};
ghost use Rattle.console_server.specs.Ready.{console_made_ready, ticked};

use crate::run::run_falls_due;
use console_model::Console;
use schedule_file::Step;
use station_base::Period;

/// Takes the steps of a schedule of this period before its first round: records fall due, and ticks pass.
///
/// An opening is passed over, and the records of a round do not fall due. What the console says to a tick is dropped.
pub fn make_ready(console: &mut Console, steps: &[Step], period: Period)
    ensures { (k : model.Console) → ConsoleStandsFor console.old k
        → ConsoleStandsFor console.new (console_made_ready period steps.now k) }
{
    for step in steps {
        match step {
            Step::Due(rec) => {
                let _ = console.due(*rec);
            }
            Step::Run { first, count } => run_falls_due(console, first, *count, period),
            Step::Idle(ticks) => pass_ticks(console, *ticks),
            Step::Open(_) => {}
            Step::Round { .. } => return,
        }
    }
}

// So many ticks pass.
fn pass_ticks(console: &mut Console, ticks: u8)
    ensures { (k : model.Console) → ConsoleStandsFor console.old k → ConsoleStandsFor console.new (ticked ticks k) }
{
    for _ in 0..ticks {
        let _ = console.tick();
    }
}

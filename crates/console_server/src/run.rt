ghost use Rattle.std.specs.Prelude.{◌≡◌, Some};
ghost use Rattle.console_model.specs.Console as model;
ghost use Rattle.console_model.specs.Standing.{ConsoleStandsFor};
ghost use Rattle.console_server.specs.Runs.{run_from};
ghost use Rattle.station_sim.specs.Line.{due_all};

use archive_record::Rec52;
use console_model::Console;
use station_base::Period;

// Lets the records of a run fall due: the first, and each next one a period later with the same values.
pub fn run_falls_due(console: &mut Console, first: &Rec52, count: u32, period: Period)
    ensures { (k : model.Console) → ConsoleStandsFor console.old k
        → ConsoleStandsFor console.new (due_all (run_from period (Some first.now) count) k) }
{
    let mut next = Some(*first);
    for _ in 0..count {
        let Some(rec) = next else {
            return;
        };
        let _ = console.due(rec);
        next = rec.moved_on(period);
    }
}

ghost use Rattle.std.specs.Prelude.{◌≡◌, ◌≢◌, ◌∷◌, []};
ghost use Rattle.console_tasks.specs.Parts.{Steps, TaskCompletes};
ghost use Rattle.console_tasks.specs.TaskTalk.{DoesTask, TaskTalk};
ghost use Rattle.console_tasks.specs.Tasks.{asking_kind};

use crate::end::TaskEnd;
use crate::exchange::exchange;
use crate::start::start;
use serial_link::Link;
use vantage_frames::{Command, write_command};

/// Asks which kind of station the console is: 16 is a Pro or a Pro2. (Davis serial manual, "WRD".)
///
/// `into` is the kind where the task is done, and else stays as it was.
pub fn station_kind<L: Link>(link: &mut L, into: &mut u8) -> TaskEnd
    ensures task { DoesTask L.traffic link.old asking_kind ((6 ∷ into.new ∷ []) ∷ []) result link.new }
    ensures stays { result ≢ TaskEnd.Done → into.new ≡ into.old }
{
    match ask_kind(link) {
        Ok(kind) => {
            *into = kind;
            TaskEnd::Done
        }
        Err(end) => end,
    }
}

// The kind, or the end of the task.
fn ask_kind<L: Link>(link: &mut L) -> Result<u8, TaskEnd>
    ensures { Steps L.traffic link.old
        (TaskCompletes (TaskTalk asking_kind) (λ kind. (6 ∷ kind ∷ []) ∷ [])) result link.new }
{
    start(link)?;
    let mut answer = [0; 2];
    exchange(link, &write_command(&Command::Kind), &mut answer)?;
    Ok(answer[1])
}

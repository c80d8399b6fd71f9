ghost use Rattle.command_words.specs.Possible.{CanBeMade};
ghost use Rattle.commands.specs.TaskRun.{calls_for, makes_task};
ghost use Rattle.run_output.specs.Outside.{means};

use crate::asking::ask;
use crate::task_text::given;
use command_words::Task;
use disk_model::Disk;
use run_output::{Ending, Outside, Text, connect};
use serial_link::{Link, Side};
use station_io::{Files, Sink};

/// Calls the console, and makes a task of it.
#[inline(never)]
pub fn call_for<F: Files, K: Sink, L: Link, D: Disk>(
    address: &str,
    task: &Task,
    outside: &mut Outside<F, K, L, D>,
) -> Result<Text, Ending>
    requires { CanBeMade task.now }
    ensures { calls_for (means F.shelf K.outlet L.traffic D.medium) address.now task.now outside.old result
        outside.new }
{
    connect(&mut outside.link, Side::Call, address)?;
    make_task(task, &mut outside.link)
}

// Makes the task over a link that is there.
fn make_task<L: Link>(task: &Task, link: &mut L) -> Result<Text, Ending>
    requires { CanBeMade task.now }
    ensures { makes_task L.traffic task.now link.old result link.new }
{
    let mut text = Text::new();
    let end = ask(task, link, &mut text);
    given(text, &end)
}

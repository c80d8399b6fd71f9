ghost use Rattle.std.specs.Prelude.{List};
ghost use Rattle.console_tasks.specs.Exchange.{Exchange};
ghost use Rattle.console_tasks.specs.OneEnd.{EndsOnce};
ghost use Rattle.console_tasks.specs.TaskTalk.{TaskTalk};

/// What was said and heard tells where a task ends, and how: no task's talk is the front of a longer one of that task,
/// and none ends in two ways.
pub fn talks_end_once()
    ensures { (exchanges : List Exchange) → EndsOnce (TaskTalk exchanges) }
{}

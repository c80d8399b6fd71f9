ghost use Rattle.std.specs.Prelude.{◌∷◌, []};
ghost use Rattle.vantage_frames.specs.Ack.{ack};
ghost use Rattle.console_tasks.specs.Exchange.{ack_frame};
ghost use Rattle.console_tasks.specs.Parts.{Steps, TaskCompletes};
ghost use Rattle.console_tasks.specs.TaskTalk.{DoesTask, TaskTalk};
ghost use Rattle.console_tasks.specs.Tasks.{setting_period};

use crate::end::TaskEnd;
use crate::exchange::say_command;
use crate::memory::read_back;
use crate::start::start;
use serial_link::Link;
use station_base::Period;
use vantage_frames::Command;

/// Sets at which period the console writes archive records, and reads it back in its memory. (Davis serial manual,
/// "SETPER"; the reading back is this project's profile.)
///
/// The console empties its archive. The task is done only where the period that was read back, with a good check, is
/// this one.
pub fn set_period<L: Link>(link: &mut L, period: Period) -> TaskEnd
    ensures { DoesTask L.traffic link.old (setting_period period) (ack ∷ ack_frame (period ∷ []) ∷ []) result link.new }
{
    match say_period(link, period) {
        Ok(()) => TaskEnd::Done,
        Err(end) => end,
    }
}

// The same, by its parts.
fn say_period<L: Link>(link: &mut L, period: Period) -> Result<(), TaskEnd>
    ensures { Steps L.traffic link.old
        (TaskCompletes (TaskTalk (setting_period period))
        (λ done. ack ∷ ack_frame (period ∷ []) ∷ [])) result link.new }
{
    start(link)?;
    say_command(link, &Command::SetPeriod(period))?;
    read_back(link, eeprom_map::PERIOD, &[period.minutes() as u8])
}

ghost use Rattle.std.specs.Prelude.{◌≡◌, ◌≢◌, ◌∷◌, [], true, IfOk, MatchResult, length};
ghost use Rattle.station_base.specs.ClockTime.{can_be_shown, clock_bytes};
ghost use Rattle.console_tasks.specs.Clock.{judge_clock};
ghost use Rattle.vantage_frames.specs.Ack.{ack};
ghost use Rattle.console_tasks.specs.Exchange.{ack_frame};
ghost use Rattle.console_tasks.specs.Parts.{Steps, TaskCompletes};
ghost use Rattle.console_tasks.specs.TaskTalk.{DoesTask, TaskTalk};
ghost use Rattle.console_tasks.specs.Tasks.{asking_time, setting_time};

use crate::clock::{CLOCK_SIZE, clock_bytes, time_shown};
use crate::end::TaskEnd;
use crate::exchange::say_command;
use crate::frame::{REST, ask_frame, say_frame};
use crate::start::start;
use serial_link::Link;
use station_base::ClockTime;
use vantage_frames::{Command, write_command};

/// Asks what the console's clock shows. (Davis serial manual, "GETTIME".)
///
/// `into` is the time where the task is done, a civil second, and else stays as it was.
pub fn get_time<L: Link>(link: &mut L, into: &mut ClockTime) -> TaskEnd
    ensures task { DoesTask L.traffic link.old asking_time (ack_frame (clock_bytes into.new) ∷ []) result link.new }
    ensures civil { result ≡ TaskEnd.Done → can_be_shown into.new ≡ true }
    ensures stays { result ≢ TaskEnd.Done → into.new ≡ into.old }
{
    match ask_time(link) {
        Ok(time) => {
            *into = time;
            TaskEnd::Done
        }
        Err(end) => end,
    }
}

// The time that the clock shows, or the end of the task.
fn ask_time<L: Link>(link: &mut L) -> Result<ClockTime, TaskEnd>
    ensures task { Steps L.traffic link.old
        (TaskCompletes (TaskTalk asking_time) (λ time. ack_frame (clock_bytes time) ∷ [])) result link.new }
    ensures civil { IfOk result (λ time. can_be_shown time ≡ true) }
{
    start(link)?;
    let mut answer = [0; CLOCK_SIZE + REST];
    ask_frame(link, &write_command(&Command::TimeGet), &mut answer)?;
    read_clock(&answer[1..=CLOCK_SIZE])
}

// The time in the bytes of a clock, if they show one.
fn read_clock(bytes: &[u8]) -> Result<ClockTime, TaskEnd>
    requires { length bytes.now ≡ CLOCK_SIZE }
    ensures judged { MatchResult result
        (λ time. (clock_bytes time ≡ bytes.now) × (judge_clock bytes.now ≡ TaskEnd.Done))
        (λ end. (end ≡ TaskEnd.BadValue) × (judge_clock bytes.now ≡ end)) }
    ensures civil { IfOk result (λ time. can_be_shown time ≡ true) }
{
    let time = time_shown(bytes);
    if time.is_civil() {
        Ok(time)
    } else {
        Err(TaskEnd::BadValue)
    }
}

/// Sets the console's clock. (Davis serial manual, "SETTIME".)
pub fn set_time<L: Link>(link: &mut L, time: &ClockTime) -> TaskEnd
    requires { can_be_shown time.now ≡ true }
    ensures { DoesTask L.traffic link.old (setting_time time.now) (ack ∷ ack ∷ []) result link.new }
{
    match say_time(link, time) {
        Ok(()) => TaskEnd::Done,
        Err(end) => end,
    }
}

// The same, by its parts.
fn say_time<L: Link>(link: &mut L, time: &ClockTime) -> Result<(), TaskEnd>
    requires { can_be_shown time.now ≡ true }
    ensures { Steps L.traffic link.old
        (TaskCompletes (TaskTalk (setting_time time.now)) (λ done. ack ∷ ack ∷ [])) result link.new }
{
    start(link)?;
    say_command(link, &Command::TimeSet)?;
    say_frame(link, &clock_bytes(time))
}

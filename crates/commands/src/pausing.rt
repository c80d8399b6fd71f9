ghost use Rattle.commands.specs.Pause.{pauses, pauses_between};
ghost use Rattle.commands.specs.StayRun.{stayed_line};

use crate::stayed::ended_after;
use run_output::{Ending, Status};
use serial_link::{Link, Recv};

// How many bytes are heard at once.
const HEARD_AT_ONCE: usize = 64;

// How often a line that talks is heard in a pause.
const MOST_HEARINGS: u32 = 65_536;

/// Pauses behind so many rounds, if others are left.
pub fn pause_between<L: Link>(link: &mut L, waits: u32, left: u32, made: u32) -> Result<(), Ending>
    ensures { pauses_between L.traffic waits left (stayed_line made) link.old result link.new }
{
    if left == 0 {
        return Ok(());
    }
    pause(link, waits, made)
}

// Says nothing until so many quiet waits have passed, or a line that talks has been heard MOST_HEARINGS times. What is
// heard is dropped.
fn pause<L: Link>(link: &mut L, waits: u32, made: u32) -> Result<(), Ending>
    ensures { pauses L.traffic waits (stayed_line made) link.old result link.new }
{
    let mut quiets = 0;
    let mut hearings = 0;
    'pause: while quiets < waits && hearings < MOST_HEARINGS {
        let mut heard = [0; HEARD_AT_ONCE];
        match link.recv(&mut heard) {
            Recv::Quiet => quiets += 1,
            Recv::Got(_) => hearings += 1,
            Recv::Failed => return Err(ended_after(made, b"link fault\n", Status::LinkFault)),
            Recv::OutOfMemory => return Err(ended_after(made, b"", Status::OutOfMemory)),
        }
    }
    Ok(())
}

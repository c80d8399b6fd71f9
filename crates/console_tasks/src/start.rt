ghost use Rattle.console_tasks.specs.Parts.{Steps, Starts};

use crate::end::TaskEnd;
use serial_link::Link;
use wake_retry::{Settled, Woken, settle, wake};

// So many quiet waits in a row leave nothing in flight.
const QUIETS: u8 = 6;

// Lets the line become quiet, and wakes the console.
pub fn start<L: Link>(link: &mut L) -> Result<(), TaskEnd>
    ensures { Steps L.traffic link.old Starts result link.new }
{
    match settle(link, QUIETS) {
        Settled::Still { .. } => {}
        Settled::Flood => return Err(TaskEnd::Flood),
        Settled::LinkFault => return Err(TaskEnd::LinkFault),
        Settled::OutOfMemory => return Err(TaskEnd::OutOfMemory),
    }
    match wake(link) {
        Woken::Awake => Ok(()),
        Woken::Asleep => Err(TaskEnd::Asleep),
        Woken::Flood => Err(TaskEnd::Flood),
        Woken::LinkFault => Err(TaskEnd::LinkFault),
        Woken::OutOfMemory => Err(TaskEnd::OutOfMemory),
    }
}

ghost use Rattle.run_output.specs.Calls.{attaches, calls};

use crate::ending::Ending;
use crate::status::Status;
use disk_model::{Disk, Disked};
use serial_link::{Connected, Link, Side};

/// Attaches a file, which is made where there is none if that is asked for.
pub fn attach<D: Disk>(disk: &mut D, name: &str, make: bool) -> Result<(), Ending>
    ensures { attaches D.medium name.now make disk.old result disk.new }
{
    match disk.attach(name, make) {
        Disked::Done => Ok(()),
        Disked::Failed => Err(Ending::with_line(b"disk fault\n", Status::DiskFault)),
    }
}

/// Calls an address, or waits at it for a call.
pub fn connect<L: Link>(link: &mut L, side: Side, address: &str) -> Result<(), Ending>
    ensures { calls L.traffic side address.now link.old result link.new }
{
    match link.connect(side, address) {
        Connected::Done => Ok(()),
        Connected::Failed => Err(Ending::with_line(b"link fault\n", Status::LinkFault)),
    }
}

ghost use Rattle.std.specs.Int.{IsInRange};
ghost use Rattle.commands.specs.ClimateRun.{tells_climate};
ghost use Rattle.run_output.specs.Outside.{means};

use crate::archive_report::ArchiveReport;
use crate::reporting::report_over;
use disk_model::Disk;
use run_output::{Ending, Outside, Text};
use serial_link::Link;
use station_io::{Files, Sink};
use std::alloc::Global;

/// Attaches the file of this name, which is not made where there is none, and writes the climate table of a year from 1999
/// to 2127.
pub fn print_climate<F: Files, K: Sink, L: Link, D: Disk>(
    alloc: Global,
    archive: &str,
    year: u16,
    outside: &mut Outside<F, K, L, D>,
) -> Result<Text, Ending>
    requires { IsInRange 1999 2127 year }
    ensures { tells_climate
        (means F.shelf K.outlet L.traffic D.medium) archive.now year outside.old result outside.new }
{
    report_over(alloc, archive, &ArchiveReport::Climate(year), outside)
}

ghost use Rattle.std.specs.Prelude.{◌≡◌};
ghost use Rattle.commands.specs.ArchiveReport.{ReportCanBeMade};
ghost use Rattle.commands.specs.ReportRun.{report_given, reports_on, reports_over};
ghost use Rattle.run_output.specs.Ended.{output_of};
ghost use Rattle.run_output.specs.Outside.{means};

use crate::archive_report::ArchiveReport;
use crate::recovering::read_archive;
use command_words::Wanted;
use disk_model::Disk;
use run_output::{Ending, Outside, Status, Text};
use serial_link::Link;
use station_io::{Files, Sink};
use std::alloc::Global;
use weather_reports::ReportEnd;

/// Attaches the file of this name, which is not made where there is none, and writes the report that is asked for.
pub fn report<F: Files, K: Sink, L: Link, D: Disk>(
    alloc: Global,
    archive: &str,
    wanted: &Wanted,
    outside: &mut Outside<F, K, L, D>,
) -> Result<Text, Ending>
    ensures { reports_on (means F.shelf K.outlet L.traffic D.medium) archive.now wanted.now outside.old result
        outside.new }
{
    report_over(alloc, archive, &ArchiveReport::OfDays(*wanted), outside)
}

/// Attaches the file of this name, which is not made where there is none, and writes the report over its archive.
#[inline(never)]
pub fn report_over<F: Files, K: Sink, L: Link, D: Disk>(
    alloc: Global,
    archive: &str,
    report: &ArchiveReport,
    outside: &mut Outside<F, K, L, D>,
) -> Result<Text, Ending>
    requires { ReportCanBeMade report.now }
    ensures { reports_over (means F.shelf K.outlet L.traffic D.medium) archive.now report.now outside.old result
        outside.new }
{
    let book = read_archive(alloc, archive, outside)?;
    let end = report.write(&book, &mut outside.disk, &mut outside.out);
    given(end)
}

// How the command goes on after a report that ended so.
fn given(end: ReportEnd) -> Result<Text, Ending>
    ensures { output_of result ≡ report_given end }
{
    match end {
        ReportEnd::Done => Ok(Text::new()),
        ReportEnd::DiskFault => Err(Ending::with_line(b"disk fault\n", Status::DiskFault)),
        ReportEnd::WriteFault => Err(Ending::silent(Status::WriteFault)),
    }
}

ghost use Rattle.commands.specs.PageRun.{prints_corrected, prints_file};
ghost use Rattle.commands.specs.Style.{short};
ghost use Rattle.run_output.specs.Outside.{means};

use crate::pages::print_pages;
use crate::style::Style;
use disk_model::Disk;
use run_output::{Ending, Outside, Text, read, settle};
use serial_link::Link;
use station_io::{Files, Sink};
use std::alloc::Global;

/// Prints the pages of the file, with stamp and outside temperature of each record.
#[inline(never)]
pub fn print_file<F: Files, K: Sink, L: Link, D: Disk>(
    alloc: Global,
    name: &str,
    outside: &mut Outside<F, K, L, D>,
) -> Result<Text, Ending>
    ensures { prints_file (means F.shelf K.outlet L.traffic D.medium) short name.now outside.old result outside.new }
{
    let file = read(alloc, &mut outside.files, name)?;
    print_pages(&file, &Style::Short, &mut outside.out)
}

/// Prints the pages of the file, with each row corrected by the settings, which are read first.
#[inline(never)]
pub fn corrected_pages<F: Files, K: Sink, L: Link, D: Disk>(
    alloc: Global,
    settings: &str,
    name: &str,
    outside: &mut Outside<F, K, L, D>,
) -> Result<Text, Ending>
    ensures { prints_corrected
        (means F.shelf K.outlet L.traffic D.medium) settings.now name.now outside.old result outside.new }
{
    let settings = settle(alloc, &mut outside.files, settings)?;
    let file = read(alloc, &mut outside.files, name)?;
    print_pages(&file, &Style::Corrected(&settings), &mut outside.out)
}

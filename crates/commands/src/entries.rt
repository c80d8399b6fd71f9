ghost use Rattle.std.specs.Prelude.{◌≡◌, ◌+◌, ◌≤◌, ◌++◌, length};
ghost use Rattle.arrayvec.specs.ArrayVec.{array_vec_len};
ghost use Rattle.commands.specs.SoftRun.{bad_entry_text, corrected_row_line, prints_soft, streams_soft};
ghost use Rattle.run_output.specs.Outside.{means};
ghost use Rattle.soft_record.specs.Readings.{HasReadings};
ghost use Rattle.station_io.specs.Files.{most_bytes};

use crate::waiting::make_room;
use disk_model::Disk;
use quality::corrected;
use run_output::{Ending, Outside, PAGE_ROOM, ROOM, Status, Text, read, settle};
use serial_link::Link;
use settings_file::Settings;
use soft_record::{ENTRY_SIZE, SoftRecord, Took};
use station_base::{Row, push_bytes, push_number};
use station_io::{Files, Put, Sink};
use std::alloc::Global;

/// Prints the rows that the entries of the file make, corrected by the settings, which are read first.
#[inline(never)]
pub fn soft_rows<F: Files, K: Sink, L: Link, D: Disk>(
    alloc: Global,
    settings: &str,
    name: &str,
    outside: &mut Outside<F, K, L, D>,
) -> Result<Text, Ending>
    ensures { prints_soft
        (means F.shelf K.outlet L.traffic D.medium) settings.now name.now outside.old result outside.new }
{
    let settings = settle(alloc, &mut outside.files, settings)?;
    let file = read(alloc, &mut outside.files, name)?;
    print_rows(&settings, &file, &mut outside.out)
}

// Prints the corrected rows of a file's entries, up to the first entry that is bad.
fn print_rows<K: Sink>(settings: &Settings, file: &[u8], out: &mut K) -> Result<Text, Ending>
    requires { length file.now ≤ most_bytes }
    ensures { streams_soft K.outlet settings.now file.now out.old result out.new }
{
    let mut soft = SoftRecord::new(settings.period());
    let mut pending = Text::new();
    let mut number = 0;
    for entry in file.chunks(ENTRY_SIZE) {
        match soft.take(entry) {
            Took::Joined => {}
            Took::Closed(row) => {
                push_row(&mut pending, settings, &row);
                if let Put::Failed = make_room(&mut pending, out) {
                    return Err(Ending::silent(Status::WriteFault));
                }
            }
            Took::Bad => {
                push_bad_entry(&mut pending, number);
                return Err(Ending::new(pending, Status::BadEntry));
            }
        }
        number += 1;
    }
    let Some(row) = soft.finish() else {
        return Ok(pending);
    };
    push_row(&mut pending, settings, &row);
    Ok(pending)
}

// Appends the line of the row that the settings correct.
fn push_row(text: &mut Text, settings: &Settings, row: &Row)
    requires room { array_vec_len text.old + PAGE_ROOM ≤ ROOM }
    requires readings { HasReadings row.now }
    ensures { text.new.items ≡ text.old.items ++ corrected_row_line settings.now row.now }
{
    corrected(settings, row).push_line(text);
}

// Appends the line that names a bad entry.
#[tactic(auto, using(station_base::proofs::NumberWidths::number_text_width), unfolding(crate::specs::SoftRun::bad_entry_text))]
fn push_bad_entry(text: &mut Text, number: u32)
    requires { array_vec_len text.old + PAGE_ROOM ≤ ROOM }
    ensures { text.new.items ≡ text.old.items ++ bad_entry_text number }
{
    push_bytes(text, b"bad entry ");
    push_number(text, number);
    push_bytes(text, b"\n");
}

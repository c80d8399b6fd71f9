ghost use Rattle.std.specs.Prelude.{◌≡◌, ℕ, List, [], Ok};
ghost use Rattle.std.specs.declared.result.Result.{Result};
ghost use Rattle.archive_import.specs.Importing.{IsImported};
ghost use Rattle.archive_import.specs.Texts.{text_rows};
ghost use Rattle.commands.specs.AllRows.{ReportsAs, all_rows_text};
ghost use Rattle.commands.specs.StationRounds.{IsLeftByRounds, MayBeFound};
ghost use Rattle.commands.specs.StayRun.{stays_by};
ghost use Rattle.packed_rows.specs.Rows.{holds, rows_of};
ghost use Rattle.row_text.specs.RowsOfText.{rows_of_text};
ghost use Rattle.run_output.specs.Ended.{Lines};
ghost use Rattle.run_output.specs.Output.{Output};
ghost use Rattle.run_output.specs.Outside.{means};
ghost use Rattle.run_output.specs.declared.outside.Outside.{Outside};
ghost use Rattle.settings_file.specs.StationSettings.{StationSettings};
ghost use Rattle.station_base.specs.declared.row.Row.{Row};
ghost use Rattle.weather_book.specs.Stands.{ReadsRows};
ghost use Rattle.weather_book.specs.declared.book.Book.{Book};

use disk_model::Disk;
use serial_link::Link;
use station_io::{Files, Sink};

/// The way back: what a report of all rows of an archive prints is read as these rows. An archive without rows, into which that
/// text was imported, has just these rows.
pub fn a_report_is_read_back<E: Disk>()
    ensures read { (image : List ℕ) (rows : List Row) → rows_of image ≡ holds rows
        → rows_of_text (all_rows_text rows) ≡ Ok rows }
    ensures imported { (image : List ℕ) (rows : List Row) (to : List ℕ) (disk : E) → rows_of image ≡ holds rows
        → rows_of to ≡ holds [] → IsImported E.medium (text_rows (all_rows_text rows)) disk to
        → ReadsRows E.medium disk rows }
{}

/// The way there: a report of all rows of an archive without rows, into which a text of rows was imported, prints that text.
pub fn an_import_is_reported<E: Disk>()
    ensures { (text : List ℕ) (rows : List Row) (to : List ℕ) (disk : E) → rows_of_text text ≡ Ok rows
        → rows_of to ≡ holds [] → IsImported E.medium (text_rows text) disk to → ReportsAs E.medium disk text }
{}

/// Whatever a stay leaves on the disk, rounds of `station` could have left: no more of them than its rounds, each behind a recovery
/// of the disk that the one before left. Between two rounds the line may be another one.
pub fn a_stay_is_rounds_of_station<F: Files, K: Sink, L: Link, D: Disk>()
    ensures { (rounds waits : ℕ) (settings : StationSettings) (book : Book) (old new : Outside F K L D)
        (result : Result Lines Output)
        → (did : stays_by (means F.shelf K.outlet L.traffic D.medium) rounds waits settings book old result new)
        → MayBeFound D.medium settings did.rows old.disk book
        → IsLeftByRounds (means F.shelf K.outlet L.traffic D.medium) settings rounds did.rows old.disk new.disk }
{}

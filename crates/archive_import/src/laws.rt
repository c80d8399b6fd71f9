ghost use Rattle.std.specs.Prelude.{◌≡◌, ℕ, List, [], Ok, flat_map};
ghost use Rattle.station_base.specs.RowLine.{row_line};
ghost use Rattle.station_base.specs.declared.row.Row.{Row};
ghost use Rattle.packed_rows.specs.Rows.{holds, rows_of};
ghost use Rattle.row_text.specs.RowsOfText.{rows_of_text};
ghost use Rattle.archive_import.specs.Importing.{rows_to_import};

/// The lines of an archive's rows, one behind another, are read as these rows. An archive of no rows gets all rows of a text.
pub fn lines_of_an_archive_are_its_rows()
    ensures read { (image : List ℕ) (rows : List Row) → rows_of image ≡ holds rows
        → rows_of_text (flat_map row_line rows) ≡ Ok rows }
    ensures all { (rows : List Row) → rows_to_import [] rows ≡ rows }
{}

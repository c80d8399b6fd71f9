ghost use Rattle.std.specs.Prelude.{◌≡◌, ◌++◌, ℕ, List, codes, None, Ok};
ghost use Rattle.station_base.specs.declared.row.Row.{Row};
ghost use Rattle.station_base.specs.RowLine.{row_line};
ghost use Rattle.row_text.specs.RowOfLine.{row_of_line};
ghost use Rattle.row_text.specs.RowsOfText.{AreTextOf, rows_of_text};
ghost use Rattle.row_text.specs.IsLineRow.{IsLineRow};

/// The line of a row is read as that row.
#[tactic(auto, using(crate::proofs::ReadBack::line_read_back))]
pub fn line_is_read_back()
    ensures { (row : Row) (line : List ℕ) → IsLineRow row → line ++ codes "\n" ≡ row_line row
        → row_of_line line ≡ Ok row }
{}

/// What is read as a row is the line of that row.
#[tactic(auto, using(crate::proofs::Written::read_line_is))]
pub fn what_is_read_is_the_line()
    ensures rows { (line : List ℕ) (row : Row) → row_of_line line ≡ Ok row → IsLineRow row }
    ensures lines { (line : List ℕ) (row : Row) → row_of_line line ≡ Ok row → line ++ codes "\n" ≡ row_line row }
{}

/// A text is read as rows just if it is their lines one behind another, each of them has a line, and their stamps rise.
#[tactic(auto, using(crate::proofs::TextBack::text_read_back))]
pub fn text_is_read_as_its_rows()
    ensures read { (text : List ℕ) (rows : List Row) → rows_of_text text ≡ Ok rows → AreTextOf None rows text }
    ensures back { (text : List ℕ) (rows : List Row) → AreTextOf None rows text → rows_of_text text ≡ Ok rows }
{}

ghost use Rattle.std.specs.Prelude.{◌≡◌};
ghost use Rattle.row_text.specs.RowsOfText.{row_count_of, rows_of_text};

use crate::{BadLine, TextRows};

/// How many rows a text has if it is that of rows whose stamps rise, and else its first line that is at fault. A text of no
/// bytes has none. It takes no memory.
pub fn count_rows(text: &[u8]) -> Result<u64, BadLine>
    ensures { result ≡ row_count_of (rows_of_text text.now) }
{
    let mut rows = TextRows::of(text);
    let mut count = 0;
    while let Some(read) = rows.next() {
        match read {
            Ok(_) => count += 1,
            Err(bad) => return Err(bad),
        }
    }
    Ok(count)
}

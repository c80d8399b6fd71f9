ghost use Rattle.std.specs.Prelude.{◌≡◌, ◌==◌, ◌≤◌, None, Some, MatchOption, length, position};
ghost use Rattle.std.specs.List.{position_or_len};
ghost use Rattle.row_text.specs.Words.{behind};

// What stands behind these bytes, if the text begins with them.
pub fn read_behind<'a>(text: &'a [u8], start: &[u8]) -> Option<&'a [u8]>
    ensures { MatchOption result (behind start.now text.now ≡ None) (λ rest. behind start.now text.now ≡ Some rest.now) }
{
    text.strip_prefix(start)
}

// How many bytes stand before the first such byte, or in all.
pub fn end_before(text: &[u8], separator: u8) -> usize
    ensures end { result ≡ position_or_len (λ byte. byte == separator) text.now }
    ensures within { result ≤ length text.now }
{
    match place_of(text, separator) {
        Some(end) => end,
        None => text.len(),
    }
}

// Where the first such byte stands, if there is one.
fn place_of(text: &[u8], separator: u8) -> Option<usize>
    ensures { result ≡ position (λ byte. byte == separator) text.now }
{
    text.iter().position(|byte| *byte == separator)
}

ghost use Rattle.std.specs.Prelude.{◌≡◌, ◌<◌, ◌≤◌, ◌==◌, ◌∷◌, [], length, position, IfSome, IfNone};
ghost use Rattle.std.specs.List.{position_or_len};
ghost use Rattle.schedule_file.specs.Pieces.{lines_of, words_of, words_left, is_silent, is_all_plain};

// The first line of a text, without its LF, and what comes behind that.
pub fn cut_line(text: &[u8]) -> (&[u8], &[u8])
    requires { 0 < length text.now }
    ensures lines { lines_of text.now ≡ result.0.now ∷ lines_of result.1.now }
    ensures shorter { length result.1.now < length text.now }
{
    let end = place_of(text, b'\n');
    if end < text.len() {
        (&text[..end], &text[end + 1..])
    } else {
        (text, &text[end..])
    }
}

// Where the first such byte stands, if there is one.
pub fn place_in(text: &[u8], separator: u8) -> Option<usize>
    ensures { result ≡ position (λ byte. byte == separator) text.now }
{
    text.iter().position(|byte| *byte == separator)
}

// The same, or the length.
fn place_of(text: &[u8], separator: u8) -> usize
    ensures place { result ≡ position_or_len (λ byte. byte == separator) text.now }
    ensures within { result ≤ length text.now }
{
    match place_in(text, separator) {
        Some(end) => end,
        None => text.len(),
    }
}

// The first word of a line, and what comes behind it.
pub fn cut_word(line: &[u8]) -> (&[u8], &[u8])
    ensures words { words_of line.now ≡ result.0.now ∷ words_left result.1.now }
    ensures shorter { length result.1.now ≤ length line.now }
{
    let end = place_of(line, b' ');
    (&line[..end], &line[end..])
}

// The next word, if there is one, and what comes behind it.
pub fn next_word(rest: &[u8]) -> Option<(&[u8], &[u8])>
    ensures none { IfNone result (words_left rest.now ≡ []) }
    ensures some { IfSome result (λ pair. words_left rest.now ≡ pair.0.now ∷ words_left pair.1.now) }
    ensures shorter { IfSome result (λ pair. length pair.1.now < length rest.now) }
{
    if rest.is_empty() {
        return None;
    }
    Some(cut_word(&rest[1..]))
}

// Whether a line is empty or begins with `#`.
pub fn is_silent(line: &[u8]) -> bool
    ensures { result ≡ is_silent line.now }
{
    match line.first() {
        None => true,
        Some(byte) => *byte == b'#',
    }
}

// Whether each byte is one that a line may have.
pub fn is_all_plain(line: &[u8]) -> bool
    ensures { result ≡ is_all_plain line.now }
{
    line.iter().all(|byte| *byte >= 0x20 && *byte <= 0x7E)
}

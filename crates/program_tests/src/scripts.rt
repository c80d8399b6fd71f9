use serial_link::{ScriptItem, ScriptLink, TalkItem};
use std::alloc::Global;
use std::test::Fail;
use value_tests::page_of_letters;
use vantage_frames::write_header;

// The date word of 2024-07-01, the day of all records.
pub const DAY: u16 = 0x30E1;

// The number that digits write.
fn number(digits: &[u8]) -> u16 {
    let mut number: u16 = 0;
    for digit in digits {
        number = number
            .wrapping_mul(10)
            .wrapping_add(u16::from(digit.wrapping_sub(b'0')));
    }
    number
}

fn hear(items: &mut Vec<ScriptItem>, bytes: &[u8]) -> Result<(), Fail> {
    for byte in bytes {
        items.push(ScriptItem::Bytes(*byte))?;
    }
    Ok(())
}

// Adds so many of an item.
fn repeat(items: &mut Vec<ScriptItem>, item: ScriptItem, count: u16) -> Result<(), Fail> {
    for _ in 0..count {
        items.push(item)?;
    }
    Ok(())
}

// Adds what a word stands for: `q6` six quiet waits, `l` a line feed, `w` LF CR, `a` 0x06, `h2` the answer of two pages,
// `f` a receive that fails, `s` a call that fails, `p0abcde` the page of sequence 0 with these records, `x0abcde` the same
// with a bad check.
fn add_word(items: &mut Vec<ScriptItem>, word: &[u8]) -> Result<(), Fail> {
    match word {
        [b'q', count @ ..] => repeat(items, ScriptItem::Quiet, number(count)),
        [b'f'] => repeat(items, ScriptItem::Fail, 1),
        [b's'] => repeat(items, ScriptItem::SendFails, 1),
        [b'l'] => hear(items, b"\n"),
        [b'w'] => hear(items, b"\n\r"),
        [b'a'] => hear(items, b"\x06"),
        [b'h', pages @ ..] => {
            hear(items, b"\x06")?;
            hear(items, &write_header(number(pages), 0))
        }
        [kind, sequence, letters @ ..] => {
            let mut bytes = page_of_letters(sequence.wrapping_sub(b'0'), letters);
            if *kind == b'x' {
                bytes[100] ^= 1;
            }
            hear(items, &bytes)
        }
        _ => Ok(()),
    }
}

// What the words stand for.
pub fn items_of(alloc: Global, script: &str) -> Result<Vec<ScriptItem>, Fail> {
    let mut items = Vec::new(alloc);
    for word in script.split(' ') {
        add_word(&mut items, word.as_bytes())?;
    }
    Ok(items)
}

// A link over which the words are heard.
pub fn line(alloc: Global, script: &str) -> Result<ScriptLink, Fail> {
    Ok(ScriptLink::new(alloc, items_of(alloc, script)?)?)
}

// The bytes that were said.
pub fn said(alloc: Global, talk: &[TalkItem]) -> Result<Vec<u8>, Fail> {
    let mut bytes = Vec::new(alloc);
    for item in talk {
        if let TalkItem::Said { byte, .. } = item {
            bytes.push(*byte)?;
        }
    }
    Ok(bytes)
}

ghost use Rattle.std.specs.Prelude.{◌≡◌, ℕ, ◌<◌, fold};
ghost use Rattle.std.specs.List.{concat};
ghost use Rattle.crc_ccitt.specs.Tables.{table_entry};
ghost use Rattle.crc_ccitt.specs.Check.{check, bits, IsRemainder, message_bits, divided};
ghost use Rattle.crc_ccitt.specs.Words.{after_word};

use crate::table::TABLES;

/// The check of the bytes: CRC-CCITT of polynomial 0x1021, start value 0, most significant bit first and no final
/// change (Davis serial manual, "CRC calculation").
#[inline(always)]
pub fn crc(bytes: &[u8]) -> u16
    ensures check { result ≡ check bytes.now }
    ensures remainder { IsRemainder (message_bits bytes.now) result }
    ensures only { (rest : ℕ) → IsRemainder (message_bits bytes.now) rest → rest ≡ result }
{
    let (chunks, bytes) = bytes.as_chunks::<8>();
    after_bytes(after_chunks(chunks), bytes)
}

// The remainder after chunks of eight bytes.
#[inline(always)]
fn after_chunks(chunks: &[[u8; 8]]) -> u16
    ensures { result ≡ check (concat chunks.now) }
{
    let mut words = [0; 4];
    for chunk in chunks {
        fold_in(&mut words, chunk);
    }
    after_words(&words)
}

// Puts a chunk behind four words and takes the first word away. The remainder stays.
//
// A square over two elements has no mixed terms, so the sixteenth power of the polynomial is x^256 + x^192 + x^80 + 1.
// The first word stands at x^256. It is added at x^192, x^80 and 1 instead. At x^80 its first two bytes meet the last two
// of the third word, and its other six the first six of the fourth. The first byte of a word is its lowest.
fn fold_in(words: &mut [u64; 4], chunk: &[u8; 8])
    ensures { fold after_word 0 words.new ≡ fold divided (fold after_word 0 words.old) (message_bits chunk.now) }
{
    let [first, second, third, fourth] = *words;
    let next = u64::from_le_bytes(*chunk);
    *words = [
        second ^ first,
        third ^ (first << 48),
        fourth ^ (first >> 16),
        next ^ first,
    ];
}

// The remainder of four words.
fn after_words(words: &[u64; 4]) -> u16
    ensures { result ≡ fold after_word 0 words.now }
{
    let mut rest = 0;
    for word in words {
        rest = after_word(rest, *word);
    }
    rest
}

// The remainder after one more word.
fn after_word(rest: u16, word: u64) -> u16
    ensures { result ≡ after_word rest word }
{
    after_chunk(rest, &word.to_le_bytes())
}

// The remainder after more bytes.
fn after_bytes(start: u16, bytes: &[u8]) -> u16
    ensures { result ≡ fold divided start (message_bits bytes.now) }
{
    let mut rest = start;
    for byte in bytes {
        rest = after_byte(rest, *byte);
    }
    rest
}

// The remainder after one more byte.
fn after_byte(rest: u16, byte: u8) -> u16
    ensures { result ≡ fold divided rest (bits 8 byte) }
{
    let high = (rest >> 8) as u8;
    (rest << 8) ^ table_entry(0, high ^ byte)
}

// The remainder after eight more bytes, each of which has a table of its own. What does not wait for the rest is
// added first.
fn after_chunk(rest: u16, chunk: &[u8; 8]) -> u16
    ensures { result ≡ fold divided rest (message_bits chunk.now) }
{
    let high = (rest >> 8) as u8;
    let low = (rest % 256) as u8;
    let behind = table_entry(5, chunk[2])
        ^ table_entry(4, chunk[3])
        ^ table_entry(3, chunk[4])
        ^ table_entry(2, chunk[5])
        ^ table_entry(1, chunk[6])
        ^ table_entry(0, chunk[7]);
    table_entry(7, chunk[0] ^ high) ^ table_entry(6, chunk[1] ^ low) ^ behind
}

// The check of a byte with so many bytes of zeros behind it.
#[inline]
#[tactic(auto, unfolding(crate::specs::Tables::table_entry))]
fn table_entry(zeros: usize, byte: u8) -> u16
    requires { zeros < 8 }
    ensures { result ≡ table_entry zeros byte }
{
    TABLES[zeros][byte as usize]
}

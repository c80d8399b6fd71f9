ghost use Rattle.std.specs.Prelude.{◌≡◌, ◌%◌};
ghost use Rattle.dmpaft_pump.specs.PageJudging.{JudgesPage};

use crate::signal::{ACK, NAK};
use vantage_frames::{PAGE_SIZE, Page, PageRead, read_page};

/// What 267 bytes are to one who asked for page k.
#[derive(Drop)]
pub enum Judged<'a> {
    // The page.
    This(Page<'a>),
    // A good page that is neither this one nor the one before it, and its sequence.
    Ahead(u8),
    // Anything else, and the byte to say next.
    Again(u8),
}

pub fn judge_page<'a>(k: u16, bytes: &'a [u8; PAGE_SIZE]) -> Judged<'a>
    ensures { JudgesPage k bytes.now result }
{
    match read_page(bytes) {
        PageRead::BadCheck => Judged::Again(NAK),
        PageRead::Good(page) => {
            let sequence = page.sequence();
            if sequence == sequence_of(k) {
                return Judged::This(page);
            }
            if k > 0 && sequence == sequence_of(k - 1) {
                return Judged::Again(ACK);
            }
            Judged::Ahead(sequence)
        }
    }
}

// The sequence of page k.
fn sequence_of(k: u16) -> u8
    ensures { result ≡ k % 256 }
{
    (k % 256) as u8
}

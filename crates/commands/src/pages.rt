ghost use Rattle.std.specs.Prelude.{◌≡◌, ◌+◌, ◌++◌, ◌≤◌, length};
ghost use Rattle.arrayvec.specs.ArrayVec.{array_vec_len};
ghost use Rattle.station_io.specs.Files.{most_bytes};
ghost use Rattle.commands.specs.PageText.{page_text};
ghost use Rattle.run_output.specs.Streams.{streams};
ghost use Rattle.commands.specs.Listing.{bad_page_text, listing};
ghost use Rattle.commands.specs.StyleRead.{style_of};

use crate::slot_text::push_slot;
use crate::style::Style;
use crate::waiting::make_room;
use run_output::{Ending, PAGE_ROOM, ROOM, Status, Text};
use station_base::{push_bytes, push_number};
use station_io::{Put, Sink};
use vantage_frames::{PAGE_SIZE, Page, PageRead, SLOTS, read_page};

/// Prints the lines of a file's pages, up to the first page that is short or has a bad check.
pub fn print_pages<K: Sink>(file: &[u8], style: &Style<'_>, out: &mut K) -> Result<Text, Ending>
    requires { length file.now ≤ most_bytes }
    ensures { streams K.outlet (listing (style_of style.now) file.now) out.old result out.new }
{
    let (pages, short) = file.as_chunks::<PAGE_SIZE>();
    let mut pending = Text::new();
    let mut number = 0;
    for page in pages {
        let PageRead::Good(page) = read_page(page) else {
            push_bad_page(&mut pending, number);
            return Err(Ending::new(pending, Status::BadPage));
        };
        push_page(&mut pending, number, style, &page);
        if let Put::Failed = make_room(&mut pending, out) {
            return Err(Ending::silent(Status::WriteFault));
        }
        number += 1;
    }
    if short.is_empty() {
        return Ok(pending);
    }
    push_bad_page(&mut pending, number);
    Err(Ending::new(pending, Status::BadPage))
}

// Appends the lines of a page.
#[tactic(auto, unfolding(crate::specs::PageText::page_text))]
fn push_page(text: &mut Text, number: u32, style: &Style<'_>, page: &Page<'_>)
    requires { array_vec_len text.old + PAGE_ROOM ≤ ROOM }
    ensures { text.new.items ≡ text.old.items ++ page_text (style_of style.now) number page.now }
{
    for place in 0..SLOTS {
        push_slot(text, number, place, style, page.slot(place));
    }
}

// Appends the line that names a bad page.
#[tactic(auto, using(station_base::proofs::NumberWidths::number_text_width), unfolding(crate::specs::Listing::bad_page_text))]
fn push_bad_page(text: &mut Text, number: u32)
    requires { array_vec_len text.old + PAGE_ROOM ≤ ROOM }
    ensures { text.new.items ≡ text.old.items ++ bad_page_text number }
{
    push_bytes(text, b"bad page ");
    push_number(text, number);
    push_bytes(text, b"\n");
}

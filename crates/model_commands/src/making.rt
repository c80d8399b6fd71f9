ghost use Rattle.std.specs.Prelude.{◌≡◌, ◌+◌, ◌*◌, ◌<◌, ◌≤◌, ◌^◌, ◌++◌};
ghost use Rattle.arrayvec.specs.ArrayVec.{array_vec_len};
ghost use Rattle.model_commands.specs.MakeRun.{MakesRun, counts_lines, endings_line, harmed_line, made_line, rows_line};

use made_run::{MOST_MADE, MakeEnd, make};
use run_output::{Ending, ROOM, Status, Text};
use schedule_replay::Counts;
use station_base::{push_bytes, push_count};
use std::alloc::Global;

/// Makes a schedule of so many records from a seed, and gives the counts of its run. No file, link or disk is touched.
#[inline(never)]
pub fn make_run(alloc: Global, seed: u32, records: u32) -> Result<Text, Ending>
    requires seed { seed < 2 ^ 31 }
    requires from { 1 ≤ records }
    requires to { records ≤ MOST_MADE }
    ensures { MakesRun seed records result }
{
    match make(alloc, seed, records) {
        MakeEnd::Done(counts) => {
            let mut text = Text::new();
            push_counts(&mut text, records, &counts);
            Ok(text)
        }
        MakeEnd::OutOfMemory => Err(Ending::silent(Status::OutOfMemory)),
    }
}

// The most bytes of one of the four lines.
const LINE_ROOM: usize = 120;

// Appends the four lines of these counts.
fn push_counts(text: &mut Text, records: u32, counts: &Counts)
    requires { array_vec_len text.old + 4 * LINE_ROOM ≤ ROOM }
    ensures { text.new.items ≡ text.old.items ++ counts_lines records counts.now }
{
    push_made(text, records, counts);
    push_endings(text, counts);
    push_harmed(text, counts);
    push_rows(text, counts);
}

// Appends how many records there are, and how many rounds.
fn push_made(text: &mut Text, records: u32, counts: &Counts)
    requires { array_vec_len text.old + LINE_ROOM ≤ ROOM }
    ensures text { text.new.items ≡ text.old.items ++ made_line records counts.now }
    ensures length { array_vec_len text.new ≤ array_vec_len text.old + LINE_ROOM }
{
    push_count(text, b"made ", u64::from(records));
    push_count(text, b" records ", counts.rounds);
    push_bytes(text, b" rounds\n");
}

// Appends how the rounds ended.
fn push_endings(text: &mut Text, counts: &Counts)
    requires { array_vec_len text.old + LINE_ROOM ≤ ROOM }
    ensures text { text.new.items ≡ text.old.items ++ endings_line counts.now }
    ensures length { array_vec_len text.new ≤ array_vec_len text.old + LINE_ROOM }
{
    push_count(text, b"ok ", counts.ok);
    push_count(text, b" gaveup ", counts.gave_up);
    push_count(text, b" full ", counts.full);
    push_count(text, b" stop ", counts.stopped);
    push_bytes(text, b"\n");
}

// Appends how many deliveries were harmed.
fn push_harmed(text: &mut Text, counts: &Counts)
    requires { array_vec_len text.old + LINE_ROOM ≤ ROOM }
    ensures text { text.new.items ≡ text.old.items ++ harmed_line counts.now }
    ensures length { array_vec_len text.new ≤ array_vec_len text.old + LINE_ROOM }
{
    push_count(text, b"harmed ", counts.harmed);
    push_bytes(text, b"\n");
}

// Appends how many rows there are at the end, and on how many days.
fn push_rows(text: &mut Text, counts: &Counts)
    requires { array_vec_len text.old + LINE_ROOM ≤ ROOM }
    ensures text { text.new.items ≡ text.old.items ++ rows_line counts.now }
    ensures length { array_vec_len text.new ≤ array_vec_len text.old + LINE_ROOM }
{
    push_count(text, b"rows ", counts.rows);
    push_count(text, b" days ", counts.days);
    push_bytes(text, b"\n");
}

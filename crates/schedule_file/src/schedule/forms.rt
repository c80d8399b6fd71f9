ghost use Rattle.std.specs.Prelude.{◌≡◌, ◌≤◌, IfSome, IfOk};
ghost use Rattle.schedule_file.specs.Pieces.{words_of, words_left};
ghost use Rattle.schedule_file.specs.Forms.{IsInRanges, form_of, told_in_words, due_form, run_in, idle_in, open_in, round_in, host_in, reply_in, answer_in, late_form, mid_in, stop_in};
ghost use Rattle.schedule_file.specs.Forms as specs;

use crate::schedule::fates::read_fate;
use crate::schedule::form::{Form, Told};
use crate::schedule::names;
use crate::schedule::naming::read_values;
use crate::schedule::numbers::{read_count, read_number, read_within};
use crate::schedule::pieces::{cut_word, next_word};
use crate::schedule::stamps::{read_clock, read_date, stamp_at};
use crate::schedule::step::Stop;

// The first word is none of those that begin a line.
const UNKNOWN: u8 = 3;

// The number or the spelling of the words is not that of the first one.
const MISSPELLED: u8 = 4;

// What a line says, or the kind of its fault.
#[tactic(auto, unfolding(crate::specs::Forms::form_of))]
pub fn read_form(line: &[u8]) -> Result<Form, u8>
    ensures form { result ≡ form_of (words_of line.now) }
    ensures ranges { IfOk result IsInRanges }
{
    let (word, rest) = cut_word(line);
    if word == names::DUE {
        or_misspelled(read_due(rest))
    } else if word == names::RUN {
        or_misspelled(read_run(rest))
    } else if word == names::IDLE {
        or_misspelled(read_idle(rest))
    } else if word == names::OPEN {
        or_misspelled(read_open(rest))
    } else if word == names::ROUND {
        or_misspelled(read_round(rest))
    } else if word == names::HOST {
        or_misspelled(read_host(rest))
    } else if word == names::REPLY {
        or_misspelled(read_reply(rest))
    } else if word == names::MID {
        or_misspelled(read_mid(rest))
    } else if word == names::STOP {
        or_misspelled(read_stop(rest))
    } else {
        Err(UNKNOWN)
    }
}

fn or_misspelled(form: Option<Form>) -> Result<Form, u8>
    requires { IfSome form IsInRanges }
    ensures form { result ≡ specs.or_misspelled form }
    ensures ranges { IfOk result IsInRanges }
{
    match form {
        Some(form) => Ok(form),
        None => Err(MISSPELLED),
    }
}

// DATE TIME [NAME=VALUE ..]
#[tactic(auto, unfolding(crate::specs::Forms::told_in_words))]
fn read_told(date: &[u8], time: &[u8], words: &[u8]) -> Option<Told>
    ensures { result ≡ told_in_words date.now time.now (words_left words.now) }
{
    let date = read_date(date)?;
    let clock = read_clock(time)?;
    let values = read_values(words)?;
    Some(Told {
        stamp: stamp_at(date, clock),
        values,
    })
}

fn read_due(words: &[u8]) -> Option<Form>
    ensures form { result ≡ due_form (words_left words.now) }
    ensures ranges { IfSome result IsInRanges }
{
    let (date, rest) = next_word(words)?;
    let (time, rest) = next_word(rest)?;
    Some(Form::Due(read_told(date, time, rest)?))
}

fn read_run(words: &[u8]) -> Option<Form>
    ensures form { result ≡ run_in (words_left words.now) }
    ensures ranges { IfSome result IsInRanges }
{
    let (date, rest) = next_word(words)?;
    let (time, rest) = next_word(rest)?;
    let (count, rest) = next_word(rest)?;
    let count = read_count(count)?;
    let first = read_told(date, time, rest)?;
    Some(Form::Run { first, count })
}

fn read_idle(words: &[u8]) -> Option<Form>
    ensures form { result ≡ idle_in (words_left words.now) }
    ensures ranges { IfSome result IsInRanges }
{
    let (ticks, rest) = next_word(words)?;
    match next_word(rest) {
        None => Some(Form::Idle(read_within(ticks, 1, 100)? as u8)),
        Some(_) => None,
    }
}

fn read_open(words: &[u8]) -> Option<Form>
    ensures form { result ≡ open_in (words_left words.now) }
    ensures ranges { IfSome result IsInRanges }
{
    match next_word(words) {
        None => Some(Form::Open),
        Some(_) => None,
    }
}

fn read_round(words: &[u8]) -> Option<Form>
    ensures form { result ≡ round_in (words_left words.now) }
    ensures ranges { IfSome result IsInRanges }
{
    match next_word(words) {
        None => Some(Form::Round),
        Some(_) => None,
    }
}

fn read_host(words: &[u8]) -> Option<Form>
    ensures form { result ≡ host_in (words_left words.now) }
    ensures ranges { IfSome result IsInRanges }
{
    let (number, rest) = next_word(words)?;
    let number = read_count(number)?;
    let fate = read_fate(rest)?;
    Some(Form::Host { number, fate })
}

fn read_reply(words: &[u8]) -> Option<Form>
    ensures form { result ≡ reply_in (words_left words.now) }
    ensures ranges { IfSome result IsInRanges }
{
    let (number, rest) = next_word(words)?;
    let number = read_count(number)?;
    read_answer(number, rest)
}

// `late K P`, or a FATE.
fn read_answer(number: u32, words: &[u8]) -> Option<Form>
    requires { 1 ≤ number }
    ensures form { result ≡ answer_in number (words_left words.now) }
    ensures ranges { IfSome result IsInRanges }
{
    let (word, rest) = next_word(words)?;
    if word == names::LATE {
        return read_late(number, rest);
    }
    let fate = read_fate(words)?;
    Some(Form::Reply { number, fate })
}

fn read_late(number: u32, words: &[u8]) -> Option<Form>
    requires { 1 ≤ number }
    ensures form { result ≡ late_form number (words_left words.now) }
    ensures ranges { IfSome result IsInRanges }
{
    let (waits, rest) = next_word(words)?;
    let (place, rest) = next_word(rest)?;
    match next_word(rest) {
        None => {
            let waits = read_number(waits)?;
            let place = read_number(place)?;
            Some(Form::Late {
                number,
                waits,
                place,
            })
        }
        Some(_) => None,
    }
}

fn read_mid(words: &[u8]) -> Option<Form>
    ensures form { result ≡ mid_in (words_left words.now) }
    ensures ranges { IfSome result IsInRanges }
{
    let (number, rest) = next_word(words)?;
    let (date, rest) = next_word(rest)?;
    let (time, rest) = next_word(rest)?;
    let number = read_count(number)?;
    let told = read_told(date, time, rest)?;
    Some(Form::Mid { number, told })
}

fn read_stop(words: &[u8]) -> Option<Form>
    ensures form { result ≡ stop_in (words_left words.now) }
    ensures ranges { IfSome result IsInRanges }
{
    let (change, rest) = next_word(words)?;
    let (pick, rest) = next_word(rest)?;
    match next_word(rest) {
        None => {
            let change = u64::from(read_count(change)?);
            let pick = u64::from(read_number(pick)?);
            Some(Form::Stop(Stop { change, pick }))
        }
        Some(_) => None,
    }
}

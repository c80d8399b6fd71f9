ghost use Rattle.std.specs.Prelude.{◌≡◌, ◌+◌, ◌<◌, ◌^◌, ℕ, List, Option, length, OnOk, MatchResult};
ghost use Rattle.station_base.specs.CivilMinute.{CivilMinute};
ghost use Rattle.serial_link.specs.declared.talk.TalkItem.{TalkItem};
ghost use Rattle.serial_link.specs.declared.talk.TalkItem.TheVariants as talk_item;
ghost use Rattle.dmpaft_pump.specs.declared.outcome.Tally.{Tally};
ghost use Rattle.dmpaft_pump.specs.Pump.{AttemptState, is_said};
ghost use Rattle.dmpaft_pump.specs.Shown.{PumpShows, PumpStands, steps_left, room_of};
ghost use Rattle.dmpaft_driver.specs.Trial.{TalkIsTried};
ghost use Rattle.dmpaft_driver.specs.Trying.{SpellsMessage, Differs, StepsOn, TrialStopsAt, fitting_count, later};

use dmpaft_pump::{Action, Kept, Pump, PumpEnd};
use serial_link::TalkItem;
use station_base::Stamp;

/// What a talk is to who tries whether it is an attempt.
#[derive(Clone, Copy, Debug, PartialEq, Eq)]
pub enum TrialEnd {
    /// It is an attempt with this end, and each batch was kept.
    Attempt(PumpEnd),
    /// It is the front of an attempt in which each batch is kept, and not the whole.
    Unfinished,
    /// So many of its items are the front of such an attempt, or the whole, and with the next item they are not.
    Not(u32),
}

/// Tries whether a talk is an attempt after a stamp in which each batch was kept. The talk has fewer than 2^32 items.
pub fn trial(after: Option<Stamp>, talk: &[TalkItem]) -> TrialEnd
    requires short { length talk.now < 2 ^ 32 }
    ensures tried { TalkIsTried after talk.now result }
{
    let mut pump = Pump::new(after);
    let mut at = 0;
    'steps: loop {
        match step(&mut pump, &talk[at..]) {
            Ok(count) => at += count,
            Err(end) => return behind(at as u32, end),
        }
    }
}

// What a talk is of which so many items were taken before, and the others are this.
fn behind(taken: u32, end: TrialEnd) -> TrialEnd
    requires { taken + fitting_count end < 2 ^ 32 }
    ensures { result ≡ later taken end }
{
    match end {
        TrialEnd::Not(count) => TrialEnd::Not(taken + count),
        TrialEnd::Attempt(_) | TrialEnd::Unfinished => end,
    }
}

// Lets a pump take the items that come next, and answers how many they were, or with what the trial ends. Where an item
// is not the one that comes next, its place among these items is told.
fn step(pump: &mut Pump, items: &[TalkItem]) -> Result<usize, TrialEnd>
    requires stands { PumpStands pump.old }
    requires short { length items.now < 2 ^ 32 }
    ensures steps { (start : Tally) (after : Option CivilMinute) (s : AttemptState) → PumpShows start after s pump.old
        → MatchResult result (λ n. StepsOn start after s items.now n pump.new) (λ e. TrialStopsAt after s items.now e) }
    ensures left { OnOk result (steps_left pump.new < steps_left pump.old) }
{
    match pump.action() {
        Action::Say(words) => {
            let count = said_of(words.as_slice(), items);
            if count == words.len() {
                pump.said();
                Ok(count)
            } else if count == items.len() {
                Err(TrialEnd::Unfinished)
            } else {
                Err(TrialEnd::Not(count as u32))
            }
        }
        Action::Listen(_) => listen(pump, items),
        Action::Keep(_) => {
            pump.kept(Kept::Done);
            Ok(0)
        }
        Action::Ended(end) => {
            if items.is_empty() {
                Err(TrialEnd::Attempt(end))
            } else {
                Err(TrialEnd::Not(0))
            }
        }
    }
}

// Lets a pump that listens take one item.
fn listen(pump: &mut Pump, items: &[TalkItem]) -> Result<usize, TrialEnd>
    requires room { 0 < room_of pump.old }
    requires stands { PumpStands pump.old }
    ensures steps { (start : Tally) (after : Option CivilMinute) (s : AttemptState) → PumpShows start after s pump.old
        → MatchResult result (λ n. StepsOn start after s items.now n pump.new) (λ e. TrialStopsAt after s items.now e) }
    ensures left { OnOk result (steps_left pump.new < steps_left pump.old) }
{
    let Some((item, _)) = items.split_first() else {
        return Err(TrialEnd::Unfinished);
    };
    match item {
        TalkItem::Heard(byte) => {
            pump.heard(&[*byte]);
            Ok(1)
        }
        TalkItem::Quiet => {
            pump.quiet();
            Ok(1)
        }
        TalkItem::Said { .. } => Err(TrialEnd::Not(0)),
    }
}

// How many of these items are the front of the message of these bytes.
fn said_of(words: &[u8], items: &[TalkItem]) -> usize
    ensures { (left : List ℕ) × (rest : List TalkItem) × SpellsMessage words.now items.now result left rest
        × Differs left rest }
{
    let mut left = words;
    let mut rest = items;
    let mut count = 0;
    'items: loop {
        let Some((byte, others)) = left.split_first() else {
            return count;
        };
        let Some((item, later)) = rest.split_first() else {
            return count;
        };
        if !is_next(item, *byte, others.is_empty()) {
            return count;
        }
        left = others;
        rest = later;
        count += 1;
    }
}

// Whether an item is this byte of a message, said.
fn is_next(item: &TalkItem, byte: u8, ends: bool) -> bool
    ensures { result ≡ is_said (talk_item.Said byte ends) item.now }
{
    match item {
        TalkItem::Said {
            byte: said,
            ends: ended,
        } => *said == byte && *ended == ends,
        TalkItem::Heard(_) | TalkItem::Quiet => false,
    }
}

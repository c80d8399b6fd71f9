ghost use Rattle.std.specs.Prelude.{◌≡◌, ◌<◌, ◌^◌, ℕ, IfOk, OnOk};
ghost use Rattle.schedule_file.specs.Steps.{details_seen, step_seen};
ghost use Rattle.draws.specs.Draws.{next_draw};
ghost use Rattle.made_run.specs.Made.{after_kind, details_of, kind_drawn, plain_round, round_of, stop_of_kind};

use causes::OutOfMemory;
use draws::Draws;
use schedule_file::{Fate, Fates, Step, Stop};
use std::alloc::Global;

// The kinds of a round, of which those from 0 to 3 have nothing that befalls in it.
const KINDS: u32 = 8;

const HOST_LOST: u32 = 4;

const REPLY_CUT: u32 = 5;

const REPLY_LATE: u32 = 6;

const STOPPED: u32 = 7;

// The message of the host, or the reply, that something becomes of.
const MESSAGE: u32 = 4;

// The bytes that come of a reply that is cut.
const CUT_BYTES: u32 = 100;

// The waits before the byte at a place of a reply that is late.
const LATE_WAITS: u8 = 2;

const LATE_PLACE: u32 = 50;

// The changes within which a stop comes, and its picks.
const CHANGES: u32 = 12;

const PICKS: u32 = 5;

// A round in which nothing befalls.
pub fn plain_round(alloc: Global) -> Step
    ensures { (period : ℕ) → step_seen period result ≡ plain_round }
{
    Step::Round {
        fates: Fates::new(alloc),
        stop: None,
    }
}

// A round of a kind that is drawn. `OutOfMemory` where there is no memory for what befalls in it.
pub fn drawn_round(alloc: Global, draws: &mut Draws) -> Result<Step, OutOfMemory>
    requires { draws.old.number < 2 ^ 31 }
    ensures step { (period : ℕ)
        → IfOk result (λ step. step_seen period step
        ≡ round_of (kind_drawn draws.old.number) (next_draw draws.old.number)) }
    ensures draws { OnOk result (draws.new.number
        ≡ after_kind (kind_drawn draws.old.number) (next_draw draws.old.number)) }
    ensures below { draws.new.number < 2 ^ 31 }
{
    let kind = draws.draw() % KINDS;
    let stop = drawn_stop(kind, draws);
    Ok(Step::Round {
        fates: fates_of(alloc, kind)?,
        stop,
    })
}

// The stop of a round of this kind, whose change and pick are drawn.
fn drawn_stop(kind: u32, draws: &mut Draws) -> Option<Stop>
    requires { draws.old.number < 2 ^ 31 }
    ensures stop { result ≡ stop_of_kind kind draws.old.number }
    ensures draws { draws.new.number ≡ after_kind kind draws.old.number }
    ensures below { draws.new.number < 2 ^ 31 }
{
    if kind != STOPPED {
        return None;
    }
    let change = u64::from(draws.draw() % CHANGES + 1);
    let pick = u64::from(draws.draw() % PICKS);
    Some(Stop { change, pick })
}

// What becomes of the messages of a round of this kind.
fn fates_of(alloc: Global, kind: u32) -> Result<Fates, OutOfMemory>
    ensures { (period : ℕ) → IfOk result (λ fates. details_seen period fates ≡ details_of kind) }
{
    let mut fates = Fates::new(alloc);
    if kind == HOST_LOST {
        fates.host(MESSAGE, Fate::Lost)?;
    } else if kind == REPLY_CUT {
        fates.reply(MESSAGE, Fate::Cut(CUT_BYTES))?;
    } else if kind == REPLY_LATE {
        fates.late(MESSAGE, LATE_WAITS, LATE_PLACE)?;
    }
    Ok(fates)
}

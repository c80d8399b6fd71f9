ghost use Rattle.std.specs.Prelude.{◌≡◌, ◌<◌, ◌≤◌, ◌+◌, ◌^◌, IfOk};
ghost use Rattle.station_base.specs.CivilMinute.{IsCivilMinute, minute_of, last_minute};
ghost use Rattle.schedule_file.specs.Steps.{steps_seen};
ghost use Rattle.made_run.specs.Made.{is_round, made_steps};

use crate::record::{drawn_record, first_stamp};
use crate::round::{drawn_round, plain_round};
use causes::OutOfMemory;
use draws::Draws;
use schedule_file::Step;
use station_base::{Period, Stamp};
use std::alloc::Global;

/// The most records that are made.
pub const MOST_MADE: u32 = 5000;

// The records after which a round comes.
const ROUND_RECORDS: u32 = 60;

/// The steps of so many records, and of the rounds behind them, that are made from a seed. `OutOfMemory` where there is
/// no memory for them.
pub fn made_schedule(
    alloc: Global,
    period: Period,
    seed: u32,
    count: u32,
) -> Result<Vec<Step>, OutOfMemory>
    requires period { period ≡ 5 }
    requires seed { seed < 2 ^ 31 }
    requires count { count ≤ MOST_MADE }
    ensures { IfOk result (λ steps. steps_seen 5 steps.items ≡ made_steps seed count) }
{
    let mut draws = Draws::new(seed);
    let mut stamp = first_stamp();
    let mut steps = Vec::new(alloc);
    for number in 0..count {
        steps.push(Step::Due(drawn_record(stamp, period, &mut draws)))?;
        if is_round(number + 1, count - number - 1) {
            steps.push(drawn_round(alloc, &mut draws)?)?;
        }
        stamp = later(stamp, period);
    }
    steps.push(plain_round(alloc))?;
    Ok(steps)
}

// Whether a round comes behind so many records, so many being left.
fn is_round(records: u32, left: u32) -> bool
    ensures { result ≡ is_round records left }
{
    records % ROUND_RECORDS == 0 || left == 0
}

// The stamp one period later, which there is.
fn later(stamp: Stamp, period: Period) -> Stamp
    requires { minute_of stamp + period ≤ minute_of last_minute }
    ensures minute { minute_of result ≡ minute_of stamp + period }
    ensures civil { IsCivilMinute result }
{
    stamp.after(period).unwrap()
}

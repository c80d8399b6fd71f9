ghost use Rattle.std.specs.Prelude.{All, IfOk, Some};
ghost use Rattle.station_base.specs.FieldSet.{AreMissing};
ghost use Rattle.station_base.specs.RowLine.{IsPrintable};
ghost use Rattle.packed_rows.specs.Adding.{ArePrintable, AreLimited};

use station_base::{Period, Row, Stamp};
use std::alloc::Global;
use std::process::Abort;
use std::test::Fail;

// The number of the outside temperature.
const OUTSIDE: usize = 0;

// A month and a day of 2024, and a time that is written in one word, as 1200 for noon.
pub type Time = (u16, u16, u16);

fn at(rt: &impl Abort, (month, day, time): Time) -> Stamp {
    assert!(rt; month < 13 && day < 32);
    Stamp::from_words(day + 32 * month + 512 * 24, time).expect(rt, "a stamp")
}

// A row of one minute, of 65.1 F outside.
pub fn row_of(rt: &impl Abort, time: Time) -> Row
    ensures printable { All IsPrintable result.values }
    ensures limited { AreMissing result.limited result.values }
{
    measured(rt, time, Period::shortest(), 651)
}

// A row of so many tenths of a degree F outside.
pub fn measured(rt: &impl Abort, time: Time, interval: Period, tenths: i32) -> Row
    requires { IsPrintable (Some tenths) }
    ensures printable { All IsPrintable result.values }
    ensures limited { AreMissing result.limited result.values }
{
    let mut row = Row::default();
    row.stamp = at(rt, time);
    row.interval = interval;
    row.values[OUTSIDE] = Some(tenths);
    row
}

// Rows of these times.
pub fn rows_of(rt: &impl Abort, alloc: Global, times: &[Time]) -> Result<Vec<Row>, Fail>
    ensures printable { IfOk result (λ rows. ArePrintable rows.items) }
    ensures limited { IfOk result (λ rows. AreLimited rows.items) }
{
    let mut rows = Vec::new(alloc);
    for time in times {
        rows.push(row_of(rt, *time))?;
    }
    Ok(rows)
}

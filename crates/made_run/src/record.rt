ghost use Rattle.std.specs.Prelude.{◌≡◌, ◌<◌, ◌^◌};
ghost use Rattle.archive_record.specs.Reading.{reading};
ghost use Rattle.archive_record.specs.declared.record_read.RecordRead.{RecordRead};
ghost use Rattle.station_base.specs.Fields.{field_named};
ghost use Rattle.schedule_file.specs.Forms.{no_values};
ghost use Rattle.draws.specs.Draws.{drawn, next_draw};
ghost use Rattle.made_run.specs.Made.{due_values, first_due, with_field_value};

use archive_record::{Rec52, RecordRead, read, write};
use draws::Draws;
use station_base::{FIELD_COUNT, FieldId, Period, Row, Stamp};

// The temperatures drawn, in tenths of a degree Fahrenheit: so many, from the coldest on.
const TEMPERATURES: u32 = 1000;

const COLDEST: i32 = -200;

// How many counts of rain are drawn, from 0 on.
const RAINS: u32 = 3;

// The stamp of the first record.
pub fn first_stamp() -> Stamp
    ensures { result ≡ first_due }
{
    Stamp::from_text(b"2024-01-01 00:05").unwrap()
}

// The record of this stamp whose two values are drawn.
pub fn drawn_record(stamp: Stamp, period: Period, draws: &mut Draws) -> Rec52
    requires { draws.old.number < 2 ^ 31 }
    ensures reads { reading result period ≡ RecordRead.Row (record {
      stamp = stamp;
      interval = period;
      values = due_values (drawn (next_draw draws.old.number)) (drawn (next_draw (next_draw draws.old.number)));
      limited = 0;
    }) }
    ensures draws { draws.new.number ≡ next_draw (next_draw draws.old.number) }
    ensures below { draws.new.number < 2 ^ 31 }
{
    let row = Row {
        stamp,
        interval: period,
        values: drawn_values(draws),
        limited: 0,
    };
    write(&row).unwrap()
}

// The values of a record, of which two are drawn.
fn drawn_values(draws: &mut Draws) -> [Option<i32>; FIELD_COUNT]
    requires { draws.old.number < 2 ^ 31 }
    ensures values { result
        ≡ due_values (drawn (next_draw draws.old.number)) (drawn (next_draw (next_draw draws.old.number))) }
    ensures draws { draws.new.number ≡ next_draw (next_draw draws.old.number) }
    ensures below { draws.new.number < 2 ^ 31 }
{
    let mut values = no_values();
    put(
        &mut values,
        b"outTemp",
        (draws.draw() % TEMPERATURES) as i32 + COLDEST,
    );
    put(&mut values, b"rain", (draws.draw() % RAINS) as i32);
    values
}

// Puts a value at the field of a name.
fn put(values: &mut [Option<i32>; FIELD_COUNT], name: &[u8], value: i32)
    ensures { values.new ≡ with_field_value (field_named name.now) value values.old }
{
    if let Some(field) = FieldId::by_bytes(name) {
        values[field.index()] = Some(value);
    }
}

// No value, and 0 where no mark tells that.
fn no_values() -> [Option<i32>; FIELD_COUNT]
    ensures { result ≡ no_values }
{
    match read(Rec52::default().bytes(), Period::shortest()) {
        RecordRead::Row(row) => row.values,
        _ => Row::default().values,
    }
}

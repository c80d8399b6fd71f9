ghost use Rattle.std.specs.Prelude.{◌≡◌, ◌≢◌, ◌⊎◌, ◌+◌, ◌≤◌, ◌<◌, ◌++◌, length, map};
ghost use Rattle.std.specs.Io.KnownBytes.{Appends};
ghost use Rattle.arrayvec.specs.ArrayVec.{array_vec_len};
ghost use Rattle.causes.specs.Cause.{Cause};
ghost use Rattle.causes.specs.Written.{Leaves, WritesPart};
ghost use Rattle.station_base.specs.RowLine.{row_line};
ghost use Rattle.packed_rows.specs.Adding.{AreLimited, ArePrintable};
ghost use Rattle.weather_reports.specs.Line.{field_lines_from};
ghost use Rattle.weather_reports.specs.Reported.{text_of_lines};
ghost use Rattle.weather_reports.specs.Wrote.{Flushes, Prints};

use crate::ReportEnd;
use crate::line::{PIECE, Pending, push_sum_line};
use daily_summary::FieldSum;
use station_base::{FIELD_COUNT, FieldId, Row};
use station_io::{Put, Sink};

/// Writes what waits at the end, where there is any. The report ended so, unless this write fails.
pub fn finish<K: Sink>(pending: &[u8], end: ReportEnd, out: &mut K) -> ReportEnd
    ensures done { result ≢ ReportEnd.WriteFault
        → Appends (K.outlet.taken out.old) (K.outlet.taken out.new) pending.now }
    ensures failed { result ≡ ReportEnd.WriteFault → end ≢ ReportEnd.WriteFault
        → WritesPart (K.outlet.taken out.old) (K.outlet.taken out.new) pending.now }
    ensures kind { (result ≡ end) ⊎ (result ≡ ReportEnd.WriteFault) }
    ensures wrote { Flushes K.outlet result pending.now out.old out.new }
    ensures cause { Cause (K.outlet.faults out.old) (K.outlet.faults out.new) (result ≢ end) }
    ensures still { result ≢ ReportEnd.WriteFault → K.outlet.faults out.new ≡ K.outlet.faults out.old }
{
    if pending.is_empty() {
        return end;
    }
    match out.put(pending) {
        Put::Done => end,
        Put::Failed => ReportEnd::WriteFault,
    }
}

/// Writes the lines that wait, if they are enough, so that there is room for one more.
pub fn make_room<K: Sink>(pending: &mut Pending, out: &mut K) -> Put
    ensures room { array_vec_len pending.new < PIECE }
    ensures done { result ≡ Put.Done
        → Leaves (K.outlet.taken out.old) (K.outlet.taken out.new) pending.old.items pending.new.items }
    ensures failed { result ≡ Put.Failed
        → WritesPart (K.outlet.taken out.old) (K.outlet.taken out.new) pending.old.items }
    ensures wrote { Prints K.outlet result pending.old.items pending.new.items out.old out.new }
    ensures cause { Cause (K.outlet.faults out.old) (K.outlet.faults out.new) (result ≡ Put.Failed) }
    ensures still { result ≢ Put.Failed → K.outlet.faults out.new ≡ K.outlet.faults out.old }
{
    if pending.len() < PIECE {
        return Put::Done;
    }
    let answer = out.put(pending.as_slice());
    pending.clear();
    answer
}

// Prints the line of each row.
pub fn print_rows<K: Sink>(pending: &mut Pending, rows: &[Row], out: &mut K) -> Put
    requires room { array_vec_len pending.old < PIECE }
    requires printable { ArePrintable rows.now }
    requires limited { AreLimited rows.now }
    ensures room { array_vec_len pending.new < PIECE }
    ensures done { result ≡ Put.Done → Leaves (K.outlet.taken out.old) (K.outlet.taken out.new)
        (pending.old.items ++ text_of_lines (map row_line rows.now)) pending.new.items }
    ensures failed { result ≡ Put.Failed → WritesPart (K.outlet.taken out.old) (K.outlet.taken out.new)
        (pending.old.items ++ text_of_lines (map row_line rows.now)) }
    ensures wrote { Prints K.outlet result (pending.old.items
        ++ text_of_lines (map row_line rows.now)) pending.new.items out.old out.new }
    ensures cause { Cause (K.outlet.faults out.old) (K.outlet.faults out.new) (result ≡ Put.Failed) }
    ensures still { result ≢ Put.Failed → K.outlet.faults out.new ≡ K.outlet.faults out.old }
{
    for row in rows {
        row.push_line(pending);
        if let Put::Failed = make_room(pending, out) {
            return Put::Failed;
        }
    }
    Put::Done
}

// Prints the line of each field that has a value.
pub fn print_sums<K: Sink>(
    pending: &mut Pending,
    head: &[u8],
    sums: &[Option<FieldSum>; FIELD_COUNT],
    out: &mut K,
) -> Put
    requires room { array_vec_len pending.old < PIECE }
    requires head { length head.now ≤ 16 }
    ensures room { array_vec_len pending.new < PIECE }
    ensures done { result ≡ Put.Done → Leaves (K.outlet.taken out.old) (K.outlet.taken out.new)
        (pending.old.items ++ text_of_lines (field_lines_from head.now 0 sums.now)) pending.new.items }
    ensures failed { result ≡ Put.Failed → WritesPart (K.outlet.taken out.old) (K.outlet.taken out.new)
        (pending.old.items ++ text_of_lines (field_lines_from head.now 0 sums.now)) }
    ensures wrote { Prints K.outlet result (pending.old.items
        ++ text_of_lines (field_lines_from head.now 0 sums.now)) pending.new.items out.old out.new }
    ensures cause { Cause (K.outlet.faults out.old) (K.outlet.faults out.new) (result ≡ Put.Failed) }
    ensures still { result ≢ Put.Failed → K.outlet.faults out.new ≡ K.outlet.faults out.old }
{
    for (index, sum) in sums.iter().enumerate() {
        let Some(sum) = sum else {
            continue;
        };
        let field = FieldId::from_index(index).unwrap();
        push_sum_line(pending, head, field, sum);
        if let Put::Failed = make_room(pending, out) {
            return Put::Failed;
        }
    }
    Put::Done
}

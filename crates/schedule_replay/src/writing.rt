ghost use Rattle.std.specs.Prelude.{◌≡◌, ◌≢◌, ◌<◌, List, Err, false, true, length};
ghost use Rattle.causes.specs.Cause.{Cause};
ghost use Rattle.station_base.specs.declared.row.Row.{Row};
ghost use Rattle.settings_file.specs.StationSettings.{StationSettings};
ghost use Rattle.replay_laws.specs.Replay.{Item, Rounded, is_stop};
ghost use Rattle.replay_laws.specs.Texts.{day_lines_text, rows_text, item_text};
ghost use Rattle.round_play.specs.Resting.{SessionGoesOn};
ghost use Rattle.schedule_replay.specs.RoundLine.{RoundLineTells, ending_of};
ghost use Rattle.schedule_replay.specs.Writing.{IsOnlyRead, IsReadable, WritesText};

use crate::cut::Cut;
use crate::line::{end_line, open_line, open_stop_line, unseen_line};
use crate::round_line::{RoundEnding, RoundLine};
use disk_model::{MemDisk, Stopping};
use station_io::{Put, Sink};
use station_session::Session;
use station_sim::Unseen;
use weather_reports::{ReportEnd, all_days, rows_from};

/// Writes `open rows N`, and the lines of the rows that were not written before.
#[tactic(auto, unfolding(replay_laws::specs::Texts::item_text))]
pub fn write_opening<K: Sink>(
    session: &Session,
    disk: &mut Stopping<MemDisk>,
    out: &mut K,
    written: u64,
) -> Result<(), Cut>
    requires { IsReadable session.now disk.old }
    ensures text { (settings : StationSettings) (rows : List Row) → SessionGoesOn settings rows session.now disk.old
        → WritesText K.outlet out.old out.new (item_text (Item.Opened rows written)) result }
    ensures disk { IsOnlyRead disk.old disk.new }
    ensures cause { Cause (K.outlet.faults out.old) (K.outlet.faults out.new) (result ≡ Err Cut.WriteFault) }
    ensures still { result ≢ Err Cut.WriteFault → K.outlet.faults out.new ≡ K.outlet.faults out.old }
{
    write(out, &open_line(session.book().len()))?;
    write_rows(session, disk, out, written)
}

/// Writes `open stop K`, of an opening within whose change K the disk stopped.
#[tactic(auto, unfolding(replay_laws::specs::Texts::item_text))]
pub fn write_stopped_opening<K: Sink>(out: &mut K, change: u64) -> Result<(), Cut>
    ensures text { (rows : List Row) → WritesText K.outlet out.old out.new
        (item_text (Item.OpenStopped change rows)) result }
    ensures cause { Cause (K.outlet.faults out.old) (K.outlet.faults out.new) (result ≡ Err Cut.WriteFault) }
    ensures still { result ≢ Err Cut.WriteFault → K.outlet.faults out.new ≡ K.outlet.faults out.old }
{
    write(out, &open_stop_line(change))
}

/// Writes the line of a round, and the lines of the rows that were not written before. A round that was stopped has
/// its line alone.
#[tactic(auto, unfolding(replay_laws::specs::Texts::item_text))]
pub fn write_round<K: Sink>(
    session: &Session,
    disk: &mut Stopping<MemDisk>,
    out: &mut K,
    line: &RoundLine,
    written: u64,
) -> Result<(), Cut>
    requires { is_stop (ending_of line.now.end) ≡ false → IsReadable session.now disk.old }
    ensures text { (x : Rounded) → RoundLineTells line.now written x
        → (is_stop x.end ≡ false → (settings : StationSettings) × SessionGoesOn settings x.rows session.now disk.old)
        → WritesText K.outlet out.old out.new (item_text (Item.Ran x)) result }
    ensures disk { IsOnlyRead disk.old disk.new }
    ensures stopped { is_stop (ending_of line.now.end) ≡ true → disk.new ≡ disk.old }
    ensures cause { Cause (K.outlet.faults out.old) (K.outlet.faults out.new) (result ≡ Err Cut.WriteFault) }
    ensures still { result ≢ Err Cut.WriteFault → K.outlet.faults out.new ≡ K.outlet.faults out.old }
{
    write(out, &line.text())?;
    match line.end {
        RoundEnding::Stopped(_) => Ok(()),
        _ => write_rows(session, disk, out, written),
    }
}

/// Writes `unseen round R host D`, or `reply D`.
#[tactic(auto, unfolding(replay_laws::specs::Texts::item_text))]
pub fn write_unseen<K: Sink>(out: &mut K, number: u32, which: Unseen) -> Result<(), Cut>
    ensures text { WritesText K.outlet out.old out.new
        (item_text (Item.Unsaid number which)) result }
    ensures cause { Cause (K.outlet.faults out.old) (K.outlet.faults out.new) (result ≡ Err Cut.WriteFault) }
    ensures still { result ≢ Err Cut.WriteFault → K.outlet.faults out.new ≡ K.outlet.faults out.old }
{
    write(out, &unseen_line(number, which))
}

/// Writes the lines of all days, and then `end rows N days D`.
#[tactic(auto, unfolding(replay_laws::specs::Texts::item_text))]
pub fn write_end<K: Sink>(
    session: &Session,
    disk: &mut Stopping<MemDisk>,
    out: &mut K,
) -> Result<(), Cut>
    requires { IsReadable session.now disk.old }
    ensures text { (settings : StationSettings) (rows : List Row) → SessionGoesOn settings rows session.now disk.old
        → WritesText K.outlet out.old out.new (item_text (Item.Ended rows)) result }
    ensures disk { IsOnlyRead disk.old disk.new }
    ensures cause { Cause (K.outlet.faults out.old) (K.outlet.faults out.new) (result ≡ Err Cut.WriteFault) }
    ensures still { result ≢ Err Cut.WriteFault → K.outlet.faults out.new ≡ K.outlet.faults out.old }
{
    let book = session.book();
    write_days(session, disk, out)?;
    write(out, &end_line(book.len(), book.days()))
}

// Writes bytes.
#[tactic(auto, using(crate::proofs::Parts::put_done, crate::proofs::Parts::put_failed))]
fn write<K: Sink>(out: &mut K, bytes: &[u8]) -> Result<(), Cut>
    requires { 0 < length bytes.now }
    ensures text { WritesText K.outlet out.old out.new bytes.now result }
    ensures cause { Cause (K.outlet.faults out.old) (K.outlet.faults out.new) (result ≡ Err Cut.WriteFault) }
    ensures still { result ≢ Err Cut.WriteFault → K.outlet.faults out.new ≡ K.outlet.faults out.old }
{
    match out.put(bytes) {
        Put::Done => Ok(()),
        Put::Failed => Err(Cut::WriteFault),
    }
}

// Writes the line of each row from a number on.
fn write_rows<K: Sink>(
    session: &Session,
    disk: &mut Stopping<MemDisk>,
    out: &mut K,
    from: u64,
) -> Result<(), Cut>
    requires { IsReadable session.now disk.old }
    ensures text { (settings : StationSettings) (rows : List Row) → SessionGoesOn settings rows session.now disk.old
        → WritesText K.outlet out.old out.new (rows_text from rows) result }
    ensures disk { IsOnlyRead disk.old disk.new }
    ensures cause { Cause (K.outlet.faults out.old) (K.outlet.faults out.new) (result ≡ Err Cut.WriteFault) }
    ensures still { result ≢ Err Cut.WriteFault → K.outlet.faults out.new ≡ K.outlet.faults out.old }
{
    match rows_from(session.book(), disk, out, from) {
        ReportEnd::Done => Ok(()),
        ReportEnd::WriteFault => Err(Cut::WriteFault),
        ReportEnd::DiskFault => unreachable!(),
    }
}

// Writes the lines of all days.
fn write_days<K: Sink>(
    session: &Session,
    disk: &mut Stopping<MemDisk>,
    out: &mut K,
) -> Result<(), Cut>
    requires { IsReadable session.now disk.old }
    ensures text { (settings : StationSettings) (rows : List Row) → SessionGoesOn settings rows session.now disk.old
        → WritesText K.outlet out.old out.new (day_lines_text rows) result }
    ensures disk { IsOnlyRead disk.old disk.new }
    ensures cause { Cause (K.outlet.faults out.old) (K.outlet.faults out.new) (result ≡ Err Cut.WriteFault) }
    ensures still { result ≢ Err Cut.WriteFault → K.outlet.faults out.new ≡ K.outlet.faults out.old }
{
    match all_days(session.book(), disk, out) {
        ReportEnd::Done => Ok(()),
        ReportEnd::WriteFault => Err(Cut::WriteFault),
        ReportEnd::DiskFault => unreachable!(),
    }
}

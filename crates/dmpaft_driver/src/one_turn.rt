ghost use Rattle.std.specs.Prelude.{◌≡◌, ◌<◌, ◌≤◌, Option, None, Some};
ghost use Rattle.causes.specs.Cause.{Cause};
ghost use Rattle.station_base.specs.CivilMinute.{CivilMinute};
ghost use Rattle.vantage_frames.specs.Slots.{page_size};
ghost use Rattle.serial_link.specs.Link.{TalkOf};
ghost use Rattle.dmpaft_pump.specs.declared.outcome.Tally.{Tally};
ghost use Rattle.dmpaft_pump.specs.Pump.{AttemptState};
ghost use Rattle.dmpaft_pump.specs.Shown.{PumpShows, PumpStands, room_of, steps_left};
ghost use Rattle.dmpaft_driver.specs.Turning.{Suits, Turns, dump_desk, ListensTo, dump_end_of};

use dmpaft_pump::{Action, DumpEnd, Keeper, Pump, PumpEnd};
use serial_link::{Link, Recv, Sent};
use vantage_frames::PAGE_SIZE;

/// Lets a pump take one turn: one message is said, or the link is listened to once, or one batch is handed over. The
/// answer is the end of the attempt, once there is one, and nothing is done then. With `LinkFault` or `OutOfMemory` the
/// pump stands where it stood.
pub fn turn<L: Link, K: Keeper>(pump: &mut Pump, link: &mut L, keeper: &mut K) -> Option<DumpEnd>
    requires stands { PumpStands pump.old }
    requires suits { Suits (K.ledger.last keeper.old) (K.ledger.room keeper.old) pump.old }
    ensures turns { (start : Tally) (after : Option CivilMinute) (s : AttemptState) → PumpShows start after s pump.old
        → Turns L.traffic K.ledger result start after s
        (dump_desk pump.old link.old keeper.old) (dump_desk pump.new link.new keeper.new) }
    ensures left { result ≡ None → steps_left pump.new < steps_left pump.old }
    ensures fault { Cause (L.traffic.faults link.old) (L.traffic.faults link.new) (result ≡ Some DumpEnd.LinkFault) }
    ensures shortage { Cause (L.traffic.shortages link.old) (L.traffic.shortages link.new)
        (result ≡ Some DumpEnd.OutOfMemory) }
{
    match pump.action() {
        Action::Say(words) => match link.send(words.as_slice()) {
            Sent::Done => {
                pump.said();
                None
            }
            Sent::Failed => Some(DumpEnd::LinkFault),
            Sent::OutOfMemory => Some(DumpEnd::OutOfMemory),
        },
        Action::Listen(most) => listen(pump, link, most),
        Action::Keep(rows) => {
            let answer = keeper.keep(rows);
            pump.kept(answer);
            None
        }
        Action::Ended(end) => Some(dump_end(end)),
    }
}

// Listens once, for so many bytes at most.
fn listen<L: Link>(pump: &mut Pump, link: &mut L, most: u16) -> Option<DumpEnd>
    requires some { 1 ≤ most }
    requires room { most ≤ room_of pump.old }
    requires piece { most ≤ page_size }
    ensures hears { (start : Tally) (after : Option CivilMinute) (s : AttemptState) → PumpShows start after s pump.old
        → TalkOf L.traffic link.old (λ t. ListensTo result start after s t pump.old pump.new) link.new }
    ensures left { (start : Tally) (after : Option CivilMinute) (s : AttemptState) → PumpShows start after s pump.old
        → result ≡ None → steps_left pump.new < steps_left pump.old }
    ensures fault { Cause (L.traffic.faults link.old) (L.traffic.faults link.new) (result ≡ Some DumpEnd.LinkFault) }
    ensures shortage { Cause (L.traffic.shortages link.old) (L.traffic.shortages link.new)
        (result ≡ Some DumpEnd.OutOfMemory) }
{
    let mut buf = [0; PAGE_SIZE];
    let room = &mut buf[..usize::from(most)];
    match link.recv(room) {
        Recv::Got(count) => {
            pump.heard(&room[..count]);
            None
        }
        Recv::Quiet => {
            pump.quiet();
            None
        }
        Recv::Failed => Some(DumpEnd::LinkFault),
        Recv::OutOfMemory => Some(DumpEnd::OutOfMemory),
    }
}

// The end of a dump whose pump ends so.
fn dump_end(end: PumpEnd) -> DumpEnd
    ensures { result ≡ dump_end_of end }
{
    match end {
        PumpEnd::Whole => DumpEnd::Whole,
        PumpEnd::Failed(trouble) => DumpEnd::Failed(trouble),
        PumpEnd::Full => DumpEnd::Full,
        PumpEnd::Stale => DumpEnd::Stale,
        PumpEnd::DiskFault => DumpEnd::DiskFault,
        PumpEnd::Flood => DumpEnd::Flood,
    }
}

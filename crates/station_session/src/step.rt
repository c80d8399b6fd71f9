ghost use Rattle.std.specs.Prelude.{◌≡◌, ◌≤◌, ◌<◌, List, Option, Some, None, vec_capacity};
ghost use Rattle.causes.specs.Cause.{Cause};
ghost use Rattle.station_base.specs.CivilMinute.{CivilMinute};
ghost use Rattle.weather_book.specs.Book.{last_stamp_of};
ghost use Rattle.dmpaft_pump.specs.declared.outcome.Tally.{Tally};
ghost use Rattle.dmpaft_pump.specs.Pump.{AttemptState};
ghost use Rattle.dmpaft_pump.specs.Shown.{PumpShows, PumpStands, steps_left};
ghost use Rattle.dmpaft_driver.specs.Turning.{Suits};
ghost use Rattle.station_session.specs.Room.{batch_room};
ghost use Rattle.station_session.specs.Holding.{holding};
ghost use Rattle.station_session.specs.Stepping.{bench, StepsAttempt};

use crate::book_keeper::BookKeeper;
use crate::report::Mark;
use disk_model::Disk;
use dmpaft_driver::turn;
use dmpaft_pump::{DumpEnd, Pump};
use serial_link::Link;
use settings_file::Settings;
use weather_book::Book;

// One step of an attempt, whose batches the book keeps.
pub fn step<L: Link, D: Disk>(
    pump: &mut Pump,
    link: &mut L,
    book: &mut Book,
    settings: &Settings,
    disk: &mut D,
    marks: &mut Vec<Mark>,
) -> Option<DumpEnd>
    requires stands { PumpStands pump.old }
    requires suits { Suits (last_stamp_of book.old)
        (batch_room book.old (D.medium.moment disk.old) marks.old) pump.old }
    ensures steps { (start : Tally) (after : Option CivilMinute) (s : AttemptState) → PumpShows start after s pump.old
        → StepsAttempt L.traffic D.medium settings.now result start after s
        (bench pump.old link.old (holding book.old disk.old marks.old.items))
        (bench pump.new link.new (holding book.new disk.new marks.new.items)) }
    ensures left { result ≡ None → steps_left pump.new < steps_left pump.old }
    ensures capacity { vec_capacity marks.old ≤ vec_capacity marks.new }
    ensures fault { Cause (L.traffic.faults link.old) (L.traffic.faults link.new) (result ≡ Some DumpEnd.LinkFault) }
    ensures shortage { Cause (L.traffic.shortages link.old) (L.traffic.shortages link.new)
        (result ≡ Some DumpEnd.OutOfMemory) }
{
    let mut keeper = BookKeeper {
        book,
        settings,
        disk,
        marks,
    };
    turn(pump, link, &mut keeper)
}

ghost use Rattle.std.specs.Prelude.{◌≡◌, ◌≤◌, ℕ, IfOk};
ghost use Rattle.replay_laws.specs.Keeping.{Archive};
ghost use Rattle.replay_laws.specs.Replay.{stops_opening};
ghost use Rattle.round_play.specs.Opening.{DiskIsReady, IsOpened, OpensBy, stopping_limits};
ghost use Rattle.round_play.specs.Resting.{AtRest};

use causes::OutOfMemory;
use disk_model::{MemDisk, Stopping};
use schedule_file::Stop;
use settings_file::Settings;
use station_session::Session;
use std::alloc::Global;
use weather_book::{Book, BookStart, Purpose};

/// Opens the archive on a disk at rest: recovers its book for writing, and begins a session of these settings over it.
/// A file that is no longer than an archive without slots is made anew. `OutOfMemory` where there is no memory for the
/// days of the rows.
pub fn recover(
    alloc: Global,
    settings: &Settings,
    disk: &mut Stopping<MemDisk>,
) -> Result<Session, OutOfMemory>
    requires ready { DiskIsReady disk.old }
    ensures opened { IfOk result (λ session. (openings : ℕ) (a : Archive) → AtRest openings a disk.old
        → IsOpened settings.now openings a session disk.new) }
    ensures limits { stopping_limits disk.new ≡ stopping_limits disk.old }
{
    match Book::recover(alloc, disk, settings.most(), Purpose::Write) {
        BookStart::Book(book) => Ok(Session::new(book, *settings)),
        BookStart::OutOfMemory => Err(OutOfMemory),
        BookStart::NotArchive(_)
        | BookStart::OldVersion
        | BookStart::Damaged(_)
        | BookStart::DiskFault => unreachable!(),
    }
}

/// Opens the archive on a disk that stops within one of the changes of the opening, if it comes to that change. Where
/// it stopped there is no session, and the disk was begun again from the picked image. Else the stop is taken back.
/// `OutOfMemory` where there is no memory for the days of the rows.
pub fn recover_with_stop(
    alloc: Global,
    settings: &Settings,
    stop: Stop,
    disk: &mut Stopping<MemDisk>,
) -> Result<Option<Session>, OutOfMemory>
    requires stop { 1 ≤ stop.change }
    requires ready { DiskIsReady disk.old }
    ensures opened { IfOk result (λ session. (openings : ℕ) (a : Archive) → AtRest openings a disk.old
        → OpensBy (stops_opening stop.change a.size) settings.now stop openings a session disk.new) }
    ensures limits { stopping_limits disk.new ≡ stopping_limits disk.old }
{
    disk.arm(stop.change, stop.pick);
    match Book::recover(alloc, disk, settings.most(), Purpose::Write) {
        BookStart::Book(book) => {
            disk.disarm();
            Ok(Some(Session::new(book, *settings)))
        }
        BookStart::DiskFault => {
            disk.restart();
            Ok(None)
        }
        BookStart::OutOfMemory => Err(OutOfMemory),
        BookStart::NotArchive(_) | BookStart::OldVersion | BookStart::Damaged(_) => unreachable!(),
    }
}

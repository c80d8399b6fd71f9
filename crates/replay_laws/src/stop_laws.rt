ghost use Rattle.std.specs.Prelude.{◌≡◌, ◌≢◌, ℕ, List, Option, Some};
ghost use Rattle.disk_model.specs.Disk.{LeavesNow};
ghost use Rattle.disk_model.specs.Stopping.{stopping_state_of, stopping_medium};
ghost use Rattle.settings_file.specs.StationSettings.{StationSettings};
ghost use Rattle.weather_book.specs.Stands.{StandsOn};
ghost use Rattle.causes.specs.declared.stored.Stored.TheVariants as kept;
ghost use Rattle.station_session.specs.declared.round_end.RoundEnd.{RoundEnd};
ghost use Rattle.station_session.specs.declared.round_end.RoundEnd.TheVariants as round_end;
ghost use Rattle.station_session.specs.Attempts.{MadeAttempt};
ghost use Rattle.station_session.specs.Batches.{last_answer, kept_count};
ghost use Rattle.schedule_file.specs.declared.schedule.step.Stop.{Stop};
ghost use Rattle.replay_laws.specs.Keeping.{Archive};
ghost use Rattle.replay_laws.specs.Session.{given_in, NotPast, RoundStopsAt, archive_left_after};
ghost use Rattle.replay_laws.specs.Stopped.{DiskRests, armed_by, IsStop, ArchiveIsLeft, IsRestart, DiskHasRoom};
ghost use Rattle.replay_laws.specs.StoppedRound.{RoundOn};

use disk_model::{MemDisk, Stopping};

/// A session's round in which the disk stops: the stop came within the batch that met the fault, and the image of the restart has
/// the rows and the length that a stop there leaves.
pub fn a_stopped_round(old: &Stopping<MemDisk>, new: &Stopping<MemDisk>)
    ensures { (settings : StationSettings) (a : Archive) (ts : List MadeAttempt) (stop : Stop) (image : List ℕ)
        → (round : RoundOn settings a ts old.now new.now) → StandsOn stopping_medium round.book old.now a.rows
        → last_answer (given_in a ts) ≡ kept.DiskFault → stopping_medium.moment old.now ≡ a.changes
        → DiskHasRoom settings stop.change stop.pick a (given_in a ts) (stopping_state_of old.now)
        → LeavesNow stopping_medium new.now image
        → IsRestart (stopping_state_of new.now) (stopping_medium.synced new.now) image
        → RoundStopsAt (Some stop) round_end.DiskFault (kept_count (given_in a ts))
        × ArchiveIsLeft (archive_left_after settings (Some stop) 0 a (given_in a ts)) image
        (stopping_medium.moment new.now) }
{}

/// A session's round that meets no disk fault: no stop came within the batches that were kept, and the disk is at rest, of the length
/// that they need.
pub fn a_round_that_goes_on(old: &Stopping<MemDisk>, new: &Stopping<MemDisk>)
    ensures { (settings : StationSettings) (a : Archive) (ts : List MadeAttempt) (end : RoundEnd) (stop : Option Stop)
        (pick : ℕ)
        → RoundOn settings a ts old.now new.now → end ≢ round_end.DiskFault
        → last_answer (given_in a ts) ≢ kept.DiskFault
        → IsStop stop → stopping_medium.moment old.now ≡ a.changes
        → DiskHasRoom settings (armed_by stop) pick a (given_in a ts) (stopping_state_of old.now)
        → RoundStopsAt stop end (kept_count (given_in a ts))
        × DiskRests (archive_left_after settings stop 0 a (given_in a ts)) (stopping_state_of new.now)
        (stopping_medium.moment new.now) }
{}

/// Where no stop is armed, a disk with room fails no batch.
pub fn no_fault_but_a_stop(old: &Stopping<MemDisk>, new: &Stopping<MemDisk>)
    ensures { (settings : StationSettings) (a : Archive) (ts : List MadeAttempt) (pick : ℕ)
        → RoundOn settings a ts old.now new.now
        → DiskHasRoom settings 0 pick a (given_in a ts) (stopping_state_of old.now)
        → last_answer (given_in a ts) ≢ kept.DiskFault }
{}

/// A session's round passes over no stop, whatever room its disk has: the stop comes within no batch that was kept.
pub fn no_stop_is_passed_over(old: &Stopping<MemDisk>, new: &Stopping<MemDisk>)
    ensures { (settings : StationSettings) (a : Archive) (ts : List MadeAttempt) (stop : Option Stop)
        → RoundOn settings a ts old.now new.now → IsStop stop → (stopping_state_of old.now).armed ≡ armed_by stop
        → NotPast stop (kept_count (given_in a ts)) }
{}

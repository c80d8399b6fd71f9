ghost use Rattle.std.specs.Prelude.{◌≤◌, length};
ghost use Rattle.station_base.specs.LastStamp.{Rises};
ghost use Rattle.archive_record.specs.Reading.{stamp_in};
ghost use Rattle.dmpaft_pump.specs.Ledger.{Ledger, Keeps};
ghost use Rattle.dmpaft_pump.specs.declared.batch.TheConstants.{MOST_RECORDS};

use archive_record::Rec52;
pub use causes::Stored as Kept;

/// What keeps the records of a dump, batch by batch.
pub trait Keeper {
    /// What is told of what is kept.
    ghost ledger: { Ledger Self };

    /// Keeps the records of one page. What `Done` is worth, the keeper's own relation tells.
    fn keep(&mut self, rows: &[Rec52]) -> Kept
        requires some { 1 ≤ length rows.now }
        requires few { length rows.now ≤ MOST_RECORDS }
        requires rising { Rises stamp_in (ledger.last self.old) rows.now }
        requires room { 1 ≤ ledger.room self.old }
        ensures { Keeps ledger self.old rows.now result self.new };
}

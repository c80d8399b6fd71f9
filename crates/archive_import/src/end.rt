ghost use Rattle.std.specs.Prelude.{◌≡◌};
ghost use Rattle.archive_import.specs.Ends.{import_not_opened};

use batch_adding::NotOpened;

/// What an import did.
#[derive(Clone, Copy, Debug, PartialEq, Eq)]
pub struct Imported {
    /// How many rows were appended.
    pub added: u64,
    /// How many rows were passed over, since their stamps do not exceed that of the archive's last row.
    pub passed: u64,
    /// How many rows the archive has now.
    pub rows: u64,
}

/// How an import ended.
#[derive(Clone, Copy, Debug, PartialEq, Eq)]
pub enum ImportEnd {
    /// Each row is appended or passed over.
    Done(Imported),
    /// The archive would have more than 1,048,576 rows; nothing was added.
    Full,
    /// The file has more than 177 bytes and begins neither with `DVARCH01` nor with `DVARCH02`, but with these bytes.
    NotArchive([u8; 8]),
    /// The archive is of the first version.
    OldVersion,
    /// The archive is damaged at this place.
    Damaged(u64),
    /// A call of the disk failed.
    Fault,
    /// There was no memory for the days of the rows.
    OutOfMemory,
}

impl ImportEnd {
    // How an import ends if the archive was not opened.
    pub fn not_opened(why: NotOpened) -> ImportEnd
        ensures { result ≡ import_not_opened why }
    {
        match why {
            NotOpened::NotArchive(bytes) => ImportEnd::NotArchive(bytes),
            NotOpened::OldVersion => ImportEnd::OldVersion,
            NotOpened::Damaged(place) => ImportEnd::Damaged(place),
            NotOpened::Fault => ImportEnd::Fault,
            NotOpened::OutOfMemory => ImportEnd::OutOfMemory,
        }
    }
}

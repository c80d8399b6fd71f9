ghost use Rattle.std.specs.Prelude.{◌≡◌};
ghost use Rattle.archive_copy.specs.Opening.{end_not_opened};

use batch_adding::NotOpened;

/// How a copy ended.
#[derive(Clone, Copy, Debug, PartialEq, Eq)]
pub enum CopyEnd {
    /// The second archive has just the rows of the first, which are so many.
    Done(u64),
    /// The file to copy from has more than 177 bytes and begins neither with `DVARCH01` nor with `DVARCH02`, but with
    /// these bytes.
    FromNotArchive([u8; 8]),
    /// The archive to copy from is damaged at this place. Place 0: a row that was read from it does not rise above the one
    /// before it, and its batch was not added.
    FromDamaged(u64),
    /// The archive to copy from has so many rows, which are more than 1,048,576.
    Full(u64),
    /// The file to copy to has more than 177 bytes and begins neither with `DVARCH01` nor with `DVARCH02`, but with
    /// these bytes.
    ToNotArchive([u8; 8]),
    /// The archive to copy to is of the first version.
    ToOldVersion,
    /// The archive to copy to is damaged at this place.
    ToDamaged(u64),
    /// The row of this number, from 0, is the first of the archive to copy to that the other one does not have there.
    NotPrefix(u64),
    /// A call of the disk to copy from failed.
    FromFault,
    /// A call of the disk to copy to failed.
    ToFault,
    /// There was no memory for the days of the rows.
    OutOfMemory,
}

impl CopyEnd {
    // How a copy ends if the archive to copy to was not opened.
    pub fn not_opened(why: NotOpened) -> CopyEnd
        ensures { result ≡ end_not_opened why }
    {
        match why {
            NotOpened::NotArchive(bytes) => CopyEnd::ToNotArchive(bytes),
            NotOpened::OldVersion => CopyEnd::ToOldVersion,
            NotOpened::Damaged(place) => CopyEnd::ToDamaged(place),
            NotOpened::Fault => CopyEnd::ToFault,
            NotOpened::OutOfMemory => CopyEnd::OutOfMemory,
        }
    }
}

ghost use Rattle.std.specs.Prelude.{◌≡◌, ◌↔◌, Some, IsErr};

use std::cell::Cell;
use std::fs::{File, Metadata};
use std::io::{self, ErrorKind};
use std::os::unix::fs::MetadataExt;

/// Which file each disk of a pair has open.
#[derive(Drop)]
pub struct OpenFiles {
    first: Cell<Option<FileId>>,
    second: Cell<Option<FileId>>,
}

impl OpenFiles {
    /// Neither has one.
    pub fn none() -> Self {
        OpenFiles {
            first: Cell::new(None),
            second: Cell::new(None),
        }
    }

    // What the first disk of the pair notes and reads, and the second.
    pub(crate) fn notes(&self) -> (Notes<'_>, Notes<'_>) {
        let first = Notes {
            mine: &self.first,
            other: &self.second,
        };
        let second = Notes {
            mine: &self.second,
            other: &self.first,
        };
        (first, second)
    }
}

// Where a disk of a pair notes its own file, and reads which one the other has.
#[derive(Clone, Copy)]
pub(crate) struct Notes<'a> {
    mine: &'a Cell<Option<FileId>>,
    other: &'a Cell<Option<FileId>>,
}

// What tells a file from all others that are open, by whichever name it was opened.
#[derive(Clone, Copy, Debug, PartialEq, Eq)]
pub(crate) struct FileId {
    device: u64,
    inode: u64,
}

impl FileId {
    fn of(found: &Metadata) -> Self {
        FileId {
            device: found.dev(),
            inode: found.ino(),
        }
    }
}

// A plain file that is open. In a pair it is noted as long as it is.
pub(crate) struct OpenFile<'a> {
    file: File,
    notes: Option<Notes<'a>>,
}

impl<'a> OpenFile<'a> {
    // What is no plain file is refused, and in a pair the file that the other disk has open.
    pub(crate) fn of(file: File, notes: Option<Notes<'a>>) -> io::Result<Self> {
        let found = file.metadata()?;
        refuse_unless_plain(&found)?;
        if let Some(notes) = notes {
            let id = FileId::of(&found);
            refuse_if_open(notes.other.get(), id)?;
            notes.mine.set(Some(id));
        }
        Ok(OpenFile { file, notes })
    }

    pub(crate) fn file(&self) -> &File {
        &self.file
    }
}

impl Drop for OpenFile<'_> {
    fn drop(self) {
        let Self { file, notes } = self;
        drop(file);
        if let Some(notes) = notes {
            notes.mine.set(None);
        }
    }
}

// A folder has bytes on some systems, and a pipe or a device may be waited on for ever.
pub(crate) fn refuse_unless_plain(found: &Metadata) -> io::Result<()> {
    if found.is_file() {
        Ok(())
    } else {
        Err(ErrorKind::InvalidInput.into())
    }
}

// Refuses the file that the other disk has open.
fn refuse_if_open(other: Option<FileId>, mine: FileId) -> io::Result<()>
    ensures { IsErr result ↔ (other ≡ Some mine) }
{
    if other == Some(mine) {
        Err(ErrorKind::ResourceBusy.into())
    } else {
        Ok(())
    }
}

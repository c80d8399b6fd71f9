ghost use Rattle.std.specs.Prelude.{◌≡◌, ◌≢◌, ◌↔◌, IsErr};
ghost use Rattle.causes.specs.Cause.{Cause};

use crate::new_archive::{NEW_SIZE, refuse_unless_new};
use crate::open_files::{Notes, OpenFile, OpenFiles, refuse_unless_plain};
use causes::raised;
use disk_model::{Disk, Disked, Length};
use std::fs;
use std::fs::{File, OpenOptions};
use std::io::{self, ErrorKind};
use std::os::unix::fs::FileExt;
use std::rt::Files;

/// A file of the system. What it holds, and what a crash may leave of it, is not told.
///
/// Each call before an attach that was done fails. Nothing is written but what `write_at` is given,
/// and nothing is cut off.
#[derive(Drop)]
pub struct FileDisk<'a, R> {
    runtime: &'a R,
    // What it shares with the other disk of a pair.
    notes: Option<Notes<'a>>,
    file: Option<OpenFile<'a>>,
    moment: u64,
    looks: u64,
    faults: u64,
}

impl<'a, R> FileDisk<'a, R> {
    /// A disk of this runtime with no file yet, on which nothing was done.
    pub fn new(runtime: &'a R) -> Self
        ensures { result.moment ≡ 0 }
    {
        Self::noting(runtime, None)
    }

    /// Two disks of this runtime with no file yet, which will never have one file open both.
    ///
    /// An attach fails where the other disk has the file open, be it to read or to write, and
    /// nothing is written. Files are told apart by device and inode, whatever their names.
    pub fn pair(runtime: &'a R, files: &'a mut OpenFiles) -> (Self, Self)
        ensures first { result.0.moment ≡ 0 }
        ensures second { result.1.moment ≡ 0 }
    {
        let (first, second) = files.notes();
        (
            Self::noting(runtime, Some(first)),
            Self::noting(runtime, Some(second)),
        )
    }

    // A disk that notes its file here, and reads here which one it is not to open.
    fn noting(runtime: &'a R, notes: Option<Notes<'a>>) -> Self
        ensures { result.moment ≡ 0 }
    {
        FileDisk {
            runtime,
            notes,
            file: None,
            moment: 0,
            looks: 0,
            faults: 0,
        }
    }

    // Counts a fault where the call failed.
    fn answer(&mut self, done: io::Result<()>) -> Disked
        ensures others { self.new ≡ record self.old { faults = self.new.faults } }
        ensures fault { Cause self.old.faults self.new.faults (result ≡ Disked.Failed) }
        ensures unless_failed { result ≢ Disked.Failed → self.new.faults ≡ self.old.faults }
        ensures exact { (result ≡ Disked.Failed) ↔ IsErr done }
    {
        match done {
            Ok(()) => Disked::Done,
            Err(_) => {
                self.faults = raised(self.faults);
                Disked::Failed
            }
        }
    }
}

impl<R: Files<File = File> + Alloc> Disk for FileDisk<'_, R> {
    ghost use Rattle.station_outside.specs.UntoldDisk.{untold_medium};

    ghost medium = { untold_medium (λ disk. disk.moment) (λ disk. disk.looks) (λ disk. disk.faults) };

    /// With `make` the file is opened to be written too, and locked, and one that is not there is
    /// made. The lock is the system's advisory one, which falls with the process: where another open
    /// has it, this fails. A file of at most 177 bytes is refused unless it may be an archive that
    /// was being made (`may_be_new_archive`), since a recovery for writing would overwrite it. The
    /// folder is synced, so that a crash does not lose the name. What is no plain file is refused,
    /// and not waited on. The file attached before is let go first, also where this fails.
    fn attach(&mut self, name: &str, make: bool) -> Disked {
        self.file = None;
        let opened = if make {
            open_to_write(self.runtime, name, self.notes)
        } else {
            open_to_read(self.runtime, name, self.notes)
        };
        let done = match opened {
            Ok(file) => {
                self.file = Some(file);
                Ok(())
            }
            Err(error) => Err(error),
        };
        self.answer(done)
    }

    fn length(&mut self) -> Length {
        match measure(&self.file) {
            Ok(bytes) => Length::Known(bytes),
            Err(_) => {
                self.faults = raised(self.faults);
                Length::Failed
            }
        }
    }

    fn read(&mut self, at: u64, buf: &mut [u8]) -> Disked {
        self.looks = raised(self.looks);
        let done = read_whole(&self.file, at, buf);
        self.answer(done)
    }

    fn write_at(&mut self, at: u64, bytes: &[u8]) -> Disked {
        self.moment += 1;
        let done = write_whole(&self.file, at, bytes);
        self.answer(done)
    }

    fn sync(&mut self) -> Disked {
        self.moment += 1;
        let done = sync_bytes(&self.file);
        self.answer(done)
    }

    fn moment(&self) -> u64 {
        self.moment
    }
}

// The file, where one is attached.
fn attached<'a>(file: &'a Option<OpenFile<'_>>) -> io::Result<&'a File> {
    match file {
        Some(open) => Ok(open.file()),
        None => Err(ErrorKind::NotFound.into()),
    }
}

fn measure(file: &Option<OpenFile<'_>>) -> io::Result<u64> {
    Ok(attached(file)?.metadata()?.len())
}

// A file that ends before the buffer is full is an error.
fn read_whole(file: &Option<OpenFile<'_>>, at: u64, buf: &mut [u8]) -> io::Result<()> {
    attached(file)?.read_exact_at(buf, at)
}

fn write_whole(file: &Option<OpenFile<'_>>, at: u64, bytes: &[u8]) -> io::Result<()> {
    attached(file)?.write_all_at(bytes, at)
}

// Of what the system keeps beside the bytes it makes durable what reading them takes, as the length.
fn sync_bytes(file: &Option<OpenFile<'_>>) -> io::Result<()> {
    attached(file)?.sync_data()
}

// The plain file of this name, to be read.
fn open_to_read<'a>(
    files: &impl Files<File = File>,
    name: &str,
    notes: Option<Notes<'a>>,
) -> io::Result<OpenFile<'a>> {
    refuse_unless_plain(&fs::metadata(files, name)?)?;
    OpenFile::of(File::open(files, name)?, notes)
}

// The plain file of this name, to be written by this process alone, and made where there is none.
fn open_to_write<'a>(
    rt: &(impl Files<File = File> + Alloc),
    name: &str,
    notes: Option<Notes<'a>>,
) -> io::Result<OpenFile<'a>> {
    match fs::metadata(rt, name) {
        Ok(found) => refuse_unless_plain(&found)?,
        Err(error) if error.kind() == ErrorKind::NotFound => {}
        Err(error) => return Err(error),
    }
    let mut options = OpenOptions::new();
    options.read(true).write(true).create(true);
    let open = OpenFile::of(options.open(rt, name)?, notes)?;
    if open.file().try_lock().is_err() {
        return Err(ErrorKind::ResourceBusy.into());
    }
    refuse_another_short_file(open.file())?;
    sync_folder(rt, name)?;
    Ok(open)
}

// Refuses a file that is no longer than an archive without rows, and is none that was being made.
fn refuse_another_short_file(file: &File) -> io::Result<()> {
    let length = file.metadata()?.len();
    if length > NEW_SIZE as u64 {
        return Ok(());
    }
    let mut bytes = [0; NEW_SIZE];
    let bytes = &mut bytes[..length as usize];
    file.read_exact_at(bytes, 0)?;
    refuse_unless_new(bytes)
}

// Makes the name durable, in the folder where the file lies, which a link may lead to. It is done
// for a file that was there too, since the process that made it may have ended before it did this.
fn sync_folder(rt: &(impl Files<File = File> + Alloc), name: &str) -> io::Result<()> {
    let path = fs::canonicalize(rt, name)?;
    let Some(folder) = path.parent() else {
        return Err(ErrorKind::NotFound.into());
    };
    File::open(rt, folder)?.sync_all()
}

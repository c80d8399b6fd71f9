//! A file that another process appends to while it is read.

use causes::raised;
use disk_model::{Disk, Disked, Length};

/// A file that another process appends one batch to, by two writes. What it holds is not told, and this disk cannot be
/// written.
#[derive(Drop)]
pub struct SharedFile<'a> {
    // Before the batch is written, behind its closed gate, and behind its open gate.
    images: [&'a [u8]; 3],
    // Before which call here, from 1, each of the two writes comes.
    written_at: u64,
    opened_at: u64,
    calls: u64,
    moment: u64,
    looks: u64,
    faults: u64,
}

impl<'a> SharedFile<'a> {
    /// The file of these images: the second one stands from the call `written_at` on, and the third one from `opened_at` on.
    pub fn new(images: [&'a [u8]; 3], written_at: u64, opened_at: u64) -> Self {
        SharedFile {
            images,
            written_at,
            opened_at,
            calls: 0,
            moment: 0,
            looks: 0,
            faults: 0,
        }
    }

    // What stands there at the present call.
    fn image(&self) -> &'a [u8] {
        let [before, written, opened] = self.images;
        if self.calls >= self.opened_at {
            opened
        } else if self.calls >= self.written_at {
            written
        } else {
            before
        }
    }
}

impl Disk for SharedFile<'_> {
    ghost use Rattle.station_outside.specs.UntoldDisk.{untold_medium};

    ghost medium = { untold_medium (λ disk. disk.moment) (λ disk. disk.looks) (λ disk. disk.faults) };

    fn attach(&mut self, _name: &str, _make: bool) -> Disked {
        Disked::Done
    }

    fn length(&mut self) -> Length {
        self.calls = raised(self.calls);
        Length::Known(self.image().len() as u64)
    }

    fn read(&mut self, at: u64, buf: &mut [u8]) -> Disked {
        self.calls = raised(self.calls);
        self.looks = raised(self.looks);
        let image = self.image();
        if image.len() < buf.len() || at > (image.len() - buf.len()) as u64 {
            self.faults = raised(self.faults);
            return Disked::Failed;
        }
        let start = at as usize;
        buf.copy_from_slice(&image[start..start + buf.len()]);
        Disked::Done
    }

    fn write_at(&mut self, _at: u64, _bytes: &[u8]) -> Disked {
        self.moment += 1;
        self.faults = raised(self.faults);
        Disked::Failed
    }

    fn sync(&mut self) -> Disked {
        self.moment += 1;
        self.faults = raised(self.faults);
        Disked::Failed
    }

    fn moment(&self) -> u64 {
        self.moment
    }
}

use disk_model::{Disk, Disked, MemDisk};
use run_output::Outside;
use serial_link::Link;
use station_io::{MemFile, MemFiles, MemSink};
use station_top::run;
use std::alloc::Global;
use std::process::Abort;
use std::test::Fail;

// More bytes than any test here writes.
const ROOM: usize = 20_000;

// Room for the longest archive here, and for the changes that make it.
const LONGEST: usize = 50_000;

const CHANGES: usize = 200;

// More changes than any disk here begins.
const MOST_CHANGES: u64 = 5_000;

// The words, the files by their names, which calls of these fail, and the capacity of the sink.
#[derive(Clone, Copy)]
pub struct Given<'w, 'f, 'c> {
    pub words: &'w [&'w str],
    pub files: &'f [(&'f str, &'f [u8])],
    pub failing: &'c [u64],
    pub capacity: usize,
}

// These words without a file, and a sink that has room.
pub fn plain<'w, 'f, 'c>(words: &'w [&'w str]) -> Given<'w, 'f, 'c> {
    Given {
        words,
        files: &[],
        failing: &[],
        capacity: ROOM,
    }
}

// How a run ended and what it wrote, and what it went over.
#[derive(Drop)]
pub struct Ended<L, D> {
    pub status: u8,
    pub text: Vec<u8>,
    pub link: L,
    pub disk: D,
    pub second: D,
}

// Has the words done over a link and two disks.
pub fn done<L: Link + Drop, D: Disk + Drop>(
    rt: &impl Abort,
    alloc: Global,
    given: &Given,
    link: L,
    disk: D,
    second: D,
) -> Result<Ended<L, D>, Fail> {
    let mut listed = Vec::new(alloc);
    for (name, bytes) in given.files {
        listed.push(MemFile {
            name: String::from_str(alloc, name)?,
            bytes: Vec::from_slice(alloc, bytes)?,
        })?;
    }
    let mut outside = Outside {
        files: MemFiles::new(listed, Vec::from_slice(alloc, given.failing)?),
        out: MemSink::new(alloc, given.capacity)?,
        link,
        disk,
        second,
    };
    assert!(rt; outside.disk.moment() < MOST_CHANGES);
    assert!(rt; outside.second.moment() < MOST_CHANGES);
    let status = run(alloc, given.words, &mut outside);
    Ok(Ended {
        status,
        text: Vec::from_slice(alloc, outside.out.bytes())?,
        link: outside.link,
        disk: outside.disk,
        second: outside.second,
    })
}

// A disk that reads as these bytes, and has room for more.
pub fn holding(rt: &impl Abort, alloc: Global, bytes: &[u8]) -> Result<MemDisk, Fail> {
    let mut disk = MemDisk::new(alloc, LONGEST, CHANGES, LONGEST)?;
    assert!(rt; disk.moment() == 0);
    if !bytes.is_empty() {
        assert!(rt; disk.write_at(0, bytes) == Disked::Done);
    }
    Ok(disk)
}

// Has the words done over a link and empty disks.
pub fn over<L: Link + Drop>(
    rt: &impl Abort,
    alloc: Global,
    given: &Given,
    link: L,
) -> Result<Ended<L, MemDisk>, Fail> {
    let disk = holding(rt, alloc, &[])?;
    let second = holding(rt, alloc, &[])?;
    done(rt, alloc, given, link, disk, second)
}

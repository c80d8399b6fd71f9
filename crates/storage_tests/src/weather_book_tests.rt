use crate::archives::{CHANGES, LONGEST, add, open};
use crate::dated_rows::{Time, rows_of};
use crate::shared_file::SharedFile;
use disk_model::{Disk, Disked, Length, MemDisk};
use std::alloc::Global;
use std::process::Abort;
use std::test::Fail;
use weather_book::{Book, BookStart, Purpose, RowAnswer};

// The time of a row that is added alone, and the gate behind it.
const FIRST: [Time; 1] = [(7, 1, 5)];

const GATE: usize = 352;

// What a file holds before an add, behind its first write, and in the end.
#[derive(Drop)]
struct AddedFile {
    before: Vec<u8>,
    written: Vec<u8>,
    opened: Vec<u8>,
}

impl AddedFile {
    fn images(&self) -> [&[u8]; 3] {
        [
            self.before.as_slice(),
            self.written.as_slice(),
            self.opened.as_slice(),
        ]
    }
}

// The bytes of the file on a disk.
fn bytes_of(rt: &impl Abort, alloc: Global, disk: &mut MemDisk) -> Result<Vec<u8>, Fail> {
    let Length::Known(len) = disk.length() else {
        return Err("no length")?;
    };
    let mut bytes = vec![in alloc; 0u8; len as usize]?;
    assert!(rt; disk.read(0, bytes.as_mut_slice()) == Disked::Done);
    Ok(bytes)
}

// The archive of one row, and an add of rows of these times behind it.
fn added_file(rt: &impl Abort, alloc: Global, times: &[Time]) -> Result<AddedFile, Fail> {
    let mut disk = MemDisk::new(alloc, LONGEST, CHANGES, LONGEST)?;
    let mut book = open(rt, alloc, &mut disk, Purpose::Write)?;
    assert!(rt; add(rt, alloc, &mut book, &mut disk, &FIRST)?);
    let before = bytes_of(rt, alloc, &mut disk)?;
    assert!(rt; add(rt, alloc, &mut book, &mut disk, times)?);
    let opened = bytes_of(rt, alloc, &mut disk)?;
    let mut written = opened.clone()?;
    assert!(rt; before.len() == GATE + 1 && written.len() > GATE);
    written[GATE] = 0;
    Ok(AddedFile {
        before,
        written,
        opened,
    })
}

// How many rows are found while the two writes of an add come before these calls, each row being the one that was added.
fn rows_beside_a_writer(
    rt: &impl Abort,
    alloc: Global,
    file: &AddedFile,
    times: &[Time],
    written_at: u64,
    opened_at: u64,
) -> Result<u64, Fail> {
    let mut disk = SharedFile::new(file.images(), written_at, opened_at);
    let book = open(rt, alloc, &mut disk, Purpose::Read)?;
    let rows = rows_of(rt, alloc, times)?;
    for (n, row) in rows.as_slice().iter().enumerate() {
        let n = n as u64;
        if n < book.len() {
            assert!(rt; book.row(&mut disk, n) == RowAnswer::Row(*row));
        }
    }
    Ok(book.len())
}

#[test]
fn a_reader_beside_a_writer_finds_the_rows_before_or_after_an_add(
    rt: HostRuntime,
) -> Result<(), Fail> {
    // One slot; and 29 slots, of three rows that close two days.
    let adds: [(&[Time], u64); 2] = [
        (&[(7, 1, 5), (7, 1, 10)], 2),
        (&[(7, 1, 5), (7, 1, 10), (7, 2, 5), (7, 3, 5)], 4),
    ];
    for (times, after) in adds {
        let [_, added @ ..] = times else {
            return Err("no row")?;
        };
        let file = added_file(&rt, rt.alloc(), added)?;
        for opened_at in 1..12 {
            for written_at in 1..opened_at + 1 {
                let rows = rows_beside_a_writer(
                    &rt,
                    rt.alloc(),
                    &file,
                    times,
                    written_at,
                    opened_at,
                )?;
                // The length, the head, what stands from the first row on, what stands behind it, and the gate there.
                assert_eq!(rt;
                    rows,
                    if opened_at <= 5 { after } else { 1 },
                    "written at {written_at}, opened at {opened_at}"
                );
            }
        }
    }
    Ok(())
}

// The damaged place of a file that has these bytes from a call on, and others before.
fn damaged_from(alloc: Global, before: &[u8], bytes: &[u8], call: u64) -> Result<u64, Fail> {
    let mut disk = SharedFile::new([before, bytes, bytes], call, call);
    match Book::recover(alloc, &mut disk, 10, Purpose::Read) {
        BookStart::Damaged(at) => Ok(at),
        _ => Err("no damage")?,
    }
}

#[test]
fn a_batch_of_no_slots_is_damage_though_the_file_grew_once(rt: HostRuntime) -> Result<(), Fail> {
    let file = added_file(&rt, rt.alloc(), &[(7, 1, 10)])?;
    let mut none = file.opened.clone()?;
    assert!(rt; none.len() > GATE + 2);
    none[GATE + 2] = 0;
    for call in 1..6 {
        let place = damaged_from(rt.alloc(), file.before.as_slice(), none.as_slice(), call)?;
        assert_eq!(rt; place, 352, "from call {call}");
    }
    Ok(())
}

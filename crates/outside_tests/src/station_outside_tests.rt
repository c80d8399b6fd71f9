use crate::calls::{attaches, length, reads, syncs, writes};
use crate::scripted_stream::{Scripted, Step};
use disk_model::{Disk, Length};
use station_io::{Put, TextRead};
use station_outside::{
    FileDisk, OpenFiles, hold_standard_streams, may_be_new_archive, read_front, write_whole,
};
use std::fs;
use std::io::ErrorKind;
use std::process::Abort;
use std::test::Fail;

#[test]
fn a_file_is_read_in_pieces(rt: HostRuntime) -> Result<(), Fail> {
    let mut into = Vec::new(rt.alloc());
    let steps = [
        Step::Moves(2),
        Step::Fails(ErrorKind::Interrupted),
        Step::Moves(3),
    ];
    let mut file = Scripted::new(&steps);
    assert_eq!(rt;
        read_front(rt.alloc(), &mut file, &mut into),
        TextRead::Done
    );
    assert_eq!(rt; into.as_slice(), [7, 7, 7, 7, 7].as_slice());
    Ok(())
}

#[test]
fn a_read_that_fails_ends_the_reading(rt: HostRuntime) -> Result<(), Fail> {
    let mut into = Vec::new(rt.alloc());
    let steps = [
        Step::Moves(2),
        Step::Fails(ErrorKind::PermissionDenied),
        Step::Moves(3),
    ];
    let mut file = Scripted::new(&steps);
    assert_eq!(rt;
        read_front(rt.alloc(), &mut file, &mut into),
        TextRead::Failed
    );
    assert_eq!(rt; file.calls, 2);
    Ok(())
}

#[test]
fn a_write_goes_on_to_its_end(rt: HostRuntime) -> Result<(), Fail> {
    let steps = [
        Step::Moves(2),
        Step::Fails(ErrorKind::Interrupted),
        Step::Moves(9),
    ];
    let mut writer = Scripted::new(&steps);
    assert_eq!(rt; write_whole(&mut writer, b"hello"), Put::Done);
    assert_eq!(rt; writer.taken, 5);
    assert_eq!(rt; writer.calls, 3);
    Ok(())
}

#[test]
fn a_write_of_no_byte_is_a_fault(rt: HostRuntime) -> Result<(), Fail> {
    let steps = [Step::Moves(2), Step::Moves(0), Step::Moves(9)];
    let mut writer = Scripted::new(&steps);
    assert_eq!(rt; write_whole(&mut writer, b"hello"), Put::Failed);
    assert_eq!(rt; writer.taken, 2);
    let steps = [Step::Moves(2), Step::Fails(ErrorKind::StorageFull)];
    let mut writer = Scripted::new(&steps);
    assert_eq!(rt; write_whole(&mut writer, b"hello"), Put::Failed);
    Ok(())
}

#[test]
fn open_streams_are_left_alone(rt: HostRuntime) -> Result<(), Fail> {
    hold_standard_streams(&rt)?;
    hold_standard_streams(&rt)?;
    Ok(())
}

const FOLDER: &str = "station_outside_disk";

const NEW: &str = "station_outside_disk/new";

// A file is made, and three bytes are written in it behind a gap.
fn is_made(rt: &impl Abort, disk: &mut impl Disk) -> bool {
    length(disk) == Length::Failed
        && !attaches(disk, NEW, false)
        && attaches(disk, NEW, true)
        && length(disk) == Length::Known(0)
        && writes(rt, disk, 203, b"abc")
        && syncs(rt, disk)
        && disk.moment() == 2
        && length(disk) == Length::Known(206)
}

// Whether a disk reads these bytes there.
fn has(disk: &mut impl Disk, at: u64, wanted: [u8; 4]) -> bool {
    let mut bytes = [9; 4];
    reads(disk, at, &mut bytes) && bytes == wanted
}

// It is opened to be written, with nothing cut off, and not written past all places.
fn is_there(rt: &impl Abort, disk: &mut impl Disk) -> bool {
    attaches(disk, NEW, true)
        && length(disk) == Length::Known(206)
        && !writes(rt, disk, u64::MAX - 2, b"abc")
}

// It is opened to be read, and not written.
fn is_read(rt: &impl Abort, disk: &mut impl Disk) -> bool {
    attaches(disk, NEW, false) && !writes(rt, disk, 0, b"x") && has(disk, 202, *b"\0abc")
}

#[test]
fn a_disk_keeps_what_is_written(rt: HostRuntime) -> Result<(), Fail> {
    let _ = fs::remove_dir_all(&rt, FOLDER);
    fs::create_dir(&rt, FOLDER)?;
    let mut disk = FileDisk::new(&rt);
    assert!(rt; is_made(&rt, &mut disk));
    assert!(rt; has(&mut disk, 201, *b"\0\0ab") && !has(&mut disk, 203, *b"abc\0"));
    drop(disk);
    assert!(rt; is_there(&rt, &mut FileDisk::new(&rt)));
    assert!(rt; is_read(&rt, &mut FileDisk::new(&rt)));
    fs::remove_dir_all(&rt, FOLDER)?;
    Ok(())
}

#[test]
fn a_new_archive_is_told_from_other_files(rt: HostRuntime) -> Result<(), Fail> {
    let left: [&[u8]; 5] = [b"", b"DVARCH02", b"DV\0RC\xFF02", &[0; 177], &[255; 177]];
    for bytes in left {
        assert!(rt; may_be_new_archive(bytes), "{bytes:?}");
    }
    let others: [&[u8]; 5] = [b"period = 5", b"DVARCH01", b"DVARCH02\0=", b"VD", &[0; 178]];
    for bytes in others {
        assert!(rt; !may_be_new_archive(bytes), "{bytes:?}");
    }
    Ok(())
}

const PAIR: &str = "station_outside_pair";

const OLD: &str = "station_outside_pair/old";

const COPY: &str = "station_outside_pair/copy";

const BYTES: &[u8] = b"DVARCH02";

// Two disks of a pair take files in turn: another file is opened, one that the other disk has is not, and a file is let go
// also by an attach that fails.
fn take_turns(rt: &impl Abort, first: &mut impl Disk, second: &mut impl Disk) -> bool {
    attaches(first, OLD, false)
        && attaches(second, COPY, true)
        && writes(rt, second, 0, b"its copy")
        && !attaches(first, COPY, false)
        && attaches(second, OLD, true)
        && attaches(first, COPY, false)
}

#[test]
fn a_file_that_is_let_go_is_free(rt: HostRuntime) -> Result<(), Fail> {
    let _ = fs::remove_dir_all(&rt, PAIR);
    fs::create_dir(&rt, PAIR)?;
    fs::write(&rt, OLD, BYTES)?;
    let mut files = OpenFiles::none();
    let (mut first, mut second) = FileDisk::pair(&rt, &mut files);
    assert!(rt; take_turns(&rt, &mut first, &mut second));
    drop(second);
    assert!(rt; attaches(&mut first, OLD, false), "let go with its disk");
    assert_eq!(rt; fs::read(&rt, OLD)?.as_slice(), BYTES);
    assert_eq!(rt; fs::read(&rt, COPY)?.as_slice(), b"its copy".as_slice());
    fs::remove_dir_all(&rt, PAIR)?;
    Ok(())
}

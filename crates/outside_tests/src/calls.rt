// Calls of a disk and of a link by functions that have no clauses: a test that makes many is then proved in a short time.

use disk_model::{Disk, Disked, Length};
use serial_link::{Connected, Link, Recv, Sent, Side};
use std::process::Abort;

// Whether the disk takes the file of this name.
pub(crate) fn attaches(disk: &mut impl Disk, name: &str, make: bool) -> bool {
    disk.attach(name, make) == Disked::Done
}

pub(crate) fn length(disk: &mut impl Disk) -> Length {
    disk.length()
}

// Whether it writes these bytes there.
pub(crate) fn writes(rt: &impl Abort, disk: &mut impl Disk, at: u64, bytes: &[u8]) -> bool {
    assert!(rt; disk.moment() < 1_000 && !bytes.is_empty());
    disk.write_at(at, bytes) == Disked::Done
}

// Whether it syncs what was written.
pub(crate) fn syncs(rt: &impl Abort, disk: &mut impl Disk) -> bool {
    assert!(rt; disk.moment() < 1_000);
    disk.sync() == Disked::Done
}

// Whether it reads the bytes that stand there.
pub(crate) fn reads(disk: &mut impl Disk, at: u64, into: &mut [u8]) -> bool {
    disk.read(at, into) == Disked::Done
}

// What comes of a call over the link.
pub(crate) fn calls(link: &mut impl Link) -> Connected {
    link.connect(Side::Call, "console")
}

// What comes of a message.
pub(crate) fn sends(rt: &impl Abort, link: &mut impl Link, bytes: &[u8]) -> Sent {
    assert!(rt; !bytes.is_empty());
    link.send(bytes)
}

// What is heard.
pub(crate) fn hears(rt: &impl Abort, link: &mut impl Link, into: &mut [u8]) -> Recv {
    assert!(rt; !into.is_empty());
    link.recv(into)
}

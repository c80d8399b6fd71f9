use console_ring::{Ring, RingPut};
use station_base::{Period, Stamp};
use std::alloc::Global;
use std::process::Abort;
use value_tests::record_of;
use vantage_frames::write_header;

// A ring of so many records, the first of the first stamp.
fn filled(alloc: Global, count: u16) -> Option<Ring> {
    let mut ring = Ring::new(alloc).ok()?;
    let mut stamp = Stamp::first();
    for _ in 0..count {
        if ring.put(record_of(stamp)?) != RingPut::Done {
            return None;
        }
        stamp = stamp.after(Period::shortest())?;
    }
    Some(ring)
}

#[test]
fn a_dump_of_all_has_the_known_headers(rt: HostRuntime) {
    for (count, plan, header) in [
        (0, (0, 0, 0), [0; 6]),
        (5, (1, 0, 0), [0x01, 0x00, 0x00, 0x00, 0x76, 0xB4]),
        (2563, (513, 3, 0), [0x01, 0x02, 0x03, 0x00, 0x4D, 0x87]),
    ] {
        let ring = filled(rt.alloc(), count).expect(&rt, "a ring");
        let all = ring.plan_after(0, 0);
        assert_eq!(rt; (all.pages, all.place, all.first_page), plan, "of {count}");
        assert_eq!(rt; write_header(all.pages, all.place), header, "of {count}");
    }
}

#[test]
fn the_last_page_of_a_full_ring_is_the_first_again(rt: HostRuntime) {
    let ring = filled(rt.alloc(), 2563).expect(&rt, "a ring");
    let all = ring.plan_after(0, 0);
    assert!(rt; all.pages == 513);
    let last = ring.page(&all, 512);
    assert_eq!(rt; last[0], 0);
    assert!(rt; last == ring.page(&all, 0));
    assert_eq!(rt; ring.page(&all, 511)[0], 255);
}

#[test]
fn a_stamp_that_does_not_rise_is_refused_with_the_newest(rt: HostRuntime) {
    let mut ring = filled(rt.alloc(), 2).expect(&rt, "a ring");
    let first = record_of(Stamp::first()).expect(&rt, "a record");
    let newest = ring.newest().expect(&rt, "a stamp");
    assert!(rt; newest.text() == *b"2000-01-01 00:01");
    assert_eq!(rt; ring.put(first), RingPut::NotRising(newest));
    assert_eq!(rt; ring.next_slot(), 2);
    ring.clear();
    assert_eq!(rt; ring.newest(), None);
    assert_eq!(rt; ring.put(first), RingPut::Done);
    assert_eq!(rt; ring.next_slot(), 1);
}

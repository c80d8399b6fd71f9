use crc_ccitt::{crc, is_good, seal};

#[test]
fn known_checks_are_computed_and_sealed(rt: HostRuntime) {
    assert_eq!(rt; crc(b""), 0);
    assert_eq!(rt; crc(b"123456789"), 0x31C3);
    assert_eq!(rt; crc(&[0xC6, 0xCE, 0xA2, 0x03]), 0xE2B4);
    assert_eq!(rt; crc(&[0x05]), 0x50A5);
    let mut frame = [0x05, 0, 0];
    seal(&mut frame);
    assert_eq!(rt; frame, [0x05, 0x50, 0xA5]);
    assert!(rt; is_good(&frame));
    assert!(rt; !is_good(b"5"));
}

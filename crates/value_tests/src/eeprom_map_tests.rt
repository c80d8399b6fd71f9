use eeprom_map::{Eeprom, RainUnit};
use station_base::Period;
use std::test::Fail;

#[test]
fn settings_stand_at_their_places(rt: HostRuntime) -> Result<(), Fail> {
    let period = Period::from_minutes(5).ok_or("no period")?;
    let mut eeprom = Eeprom::new(rt.alloc(), period)?;
    assert_eq!(rt; eeprom.period(), Some(period));
    assert_eq!(rt; eeprom.bytes(0x2C, 3), [0, 5, 0].as_slice());
    assert!(rt; eeprom.put(0x0B, &[0x7C, 0x01, 0x39, 0xFB, 0x10, 0x27]));
    assert_eq!(rt; eeprom.latitude(), 380);
    assert_eq!(rt; eeprom.longitude(), -1223);
    assert_eq!(rt; eeprom.elevation(), 10_000);
    for (setup, unit) in [
        (0x0F, Some(RainUnit::Hundredths)),
        (0x1F, Some(RainUnit::Fifths)),
        (0xEF, Some(RainUnit::Tenths)),
        (0x30, None),
    ] {
        assert!(rt; eeprom.put(0x2B, &[setup]));
        assert_eq!(rt; eeprom.rain_unit(), unit);
    }
    Ok(())
}

#[test]
fn bytes_are_put_up_to_the_end(rt: HostRuntime) -> Result<(), Fail> {
    let period = Period::from_minutes(120).ok_or("no period")?;
    let mut eeprom = Eeprom::new(rt.alloc(), period)?;
    assert!(rt; eeprom.put(0xFFE, &[1, 2]));
    assert!(rt; !eeprom.put(0xFFF, &[3, 4]));
    assert!(rt; eeprom.put(4096, &[]));
    assert!(rt; !eeprom.put(4097, &[]));
    assert_eq!(rt; eeprom.bytes(0xFFD, 3), [0, 1, 2].as_slice());
    assert_eq!(rt; eeprom.bytes(0, 4096).len(), 4096);
    Ok(())
}

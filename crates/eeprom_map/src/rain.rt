/// What one tip of the rain collector stands for (Davis serial manual, "EEPROM Configuration Settings").
#[derive(Clone, Copy, Debug, PartialEq, Eq)]
pub enum RainUnit {
    /// 0.01 inch.
    Hundredths,
    /// 0.2 mm.
    Fifths,
    /// 0.1 mm.
    Tenths,
}

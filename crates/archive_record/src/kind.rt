ghost use Rattle.std.specs.Prelude.{◌≡◌, ◌↔◌, IsSome, IfSome};

/// How a field stands in a record, and so which values it can have.
#[derive(Clone, Copy, Debug, PartialEq, Eq)]
pub enum Kind {
    /// Two bytes, the low one first: -32,768 to 32,767.
    SignedWord,
    /// Two bytes, the low one first: 0 to 65,535.
    Word,
    /// One byte: 0 to 255.
    Byte,
    /// One byte, which is 90 more than the degrees Fahrenheit: -90 to 165.
    Degrees,
}

// What is added to degrees, so that a byte without a sign can hold them.
const DEGREES_SHIFT: i32 = 90;

impl Kind {
    ghost use Rattle.archive_record.specs.Kind.{IsRaw, HasValue, value_of_kind};

    /// The value that a number in the record stands for.
    pub fn value(&self, raw: u16) -> i32
        ensures { result ≡ value_of_kind self.now raw }
    {
        match self {
            Kind::SignedWord => i32::from(raw.cast_signed()),
            Kind::Word | Kind::Byte => i32::from(raw),
            Kind::Degrees => i32::from(raw) - DEGREES_SHIFT,
        }
    }

    /// The number that stands for a value in the record. There is none for a value beyond those of the kind.
    pub fn raw(&self, value: i32) -> Option<u16>
        ensures range { IsSome result ↔ HasValue self.now value }
        ensures found { IfSome result (λ raw. IsRaw self.now raw × (value_of_kind self.now raw ≡ value)) }
    {
        match self {
            Kind::SignedWord => Some(i16::try_from(value).ok()?.cast_unsigned()),
            Kind::Word => u16::try_from(value).ok(),
            Kind::Byte => Some(u16::from(u8::try_from(value).ok()?)),
            Kind::Degrees => Some(u16::from(u8::try_from(value.checked_add(DEGREES_SHIFT)?).ok()?)),
        }
    }
}

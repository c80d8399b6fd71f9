ghost use Rattle.std.specs.Prelude.{◌≡◌, ◌<◌, ◌+◌, ◌++◌, ℕ, IfSome, codes, length, take};
ghost use Rattle.std.specs.Option.{SomeIff};
ghost use Rattle.station_base.specs.Fields.{field_named, name_of, field_unit, field_count};

use std::marker::Model;

/// How many fields an archive record of revision B has.
pub const FIELD_COUNT: usize = 37;

// The name and the unit of each field, in the order of their numbers.
static TEXTS: [(&str, &str); FIELD_COUNT] = [
    ("outTemp", "0.1 F"),
    ("highOutTemp", "0.1 F"),
    ("lowOutTemp", "0.1 F"),
    ("rain", "clicks"),
    ("highRainRate", "clicks per hour"),
    ("barometer", "0.001 inHg"),
    ("radiation", "W/m2"),
    ("windSamples", "count"),
    ("inTemp", "0.1 F"),
    ("inHumidity", "percent"),
    ("outHumidity", "percent"),
    ("windSpeed", "mph"),
    ("windGust", "mph"),
    ("windGustDir", "code"),
    ("windDir", "code"),
    ("UV", "0.1 index"),
    ("ET", "0.001 inch"),
    ("highRadiation", "W/m2"),
    ("highUV", "0.1 index"),
    ("forecastRule", "code"),
    ("leafTemp1", "F"),
    ("leafTemp2", "F"),
    ("leafWet1", "scale"),
    ("leafWet2", "scale"),
    ("soilTemp1", "F"),
    ("soilTemp2", "F"),
    ("soilTemp3", "F"),
    ("soilTemp4", "F"),
    ("extraHumid1", "percent"),
    ("extraHumid2", "percent"),
    ("extraTemp1", "F"),
    ("extraTemp2", "F"),
    ("extraTemp3", "F"),
    ("soilMoist1", "centibar"),
    ("soilMoist2", "centibar"),
    ("soilMoist3", "centibar"),
    ("soilMoist4", "centibar"),
];

/// The bytes that hold what stands before a field's value in a line.
pub const HEAD_ROOM: usize = 16;

/// How much longer this is than the name of the field: the blank before it, and the `=`.
pub const AROUND: usize = 2;

// ` NAME=` of each field, with blanks behind it.
static HEADS: [[u8; HEAD_ROOM]; FIELD_COUNT] = [
    *b" outTemp=       ",
    *b" highOutTemp=   ",
    *b" lowOutTemp=    ",
    *b" rain=          ",
    *b" highRainRate=  ",
    *b" barometer=     ",
    *b" radiation=     ",
    *b" windSamples=   ",
    *b" inTemp=        ",
    *b" inHumidity=    ",
    *b" outHumidity=   ",
    *b" windSpeed=     ",
    *b" windGust=      ",
    *b" windGustDir=   ",
    *b" windDir=       ",
    *b" UV=            ",
    *b" ET=            ",
    *b" highRadiation= ",
    *b" highUV=        ",
    *b" forecastRule=  ",
    *b" leafTemp1=     ",
    *b" leafTemp2=     ",
    *b" leafWet1=      ",
    *b" leafWet2=      ",
    *b" soilTemp1=     ",
    *b" soilTemp2=     ",
    *b" soilTemp3=     ",
    *b" soilTemp4=     ",
    *b" extraHumid1=   ",
    *b" extraHumid2=   ",
    *b" extraTemp1=    ",
    *b" extraTemp2=    ",
    *b" extraTemp3=    ",
    *b" soilMoist1=    ",
    *b" soilMoist2=    ",
    *b" soilMoist3=    ",
    *b" soilMoist4=    ",
];

/// A field of an archive record, by its number from 0 to 36 in the order of this project's table.
#[derive(Clone, Copy, Debug, PartialEq, Eq, PartialOrd, Ord, Hash)]
pub struct FieldId {
    index: usize,
}

impl Model for FieldId {
    ghost use Rattle.std.specs.Prelude.{ℕ, ◌<◌};
    ghost use Rattle.station_base.specs.Fields.{field_count};

    ghost Value = { ℕ };

    ghost view = { λ f. f.index };

    ghost invariant = { λ f. f.index < field_count };

    ghost inverse = { λ index. record { index = index } };
}

impl FieldId {
    /// The field of that number, where it is below 37.
    pub fn from_index(index: usize) -> Option<FieldId>
        ensures { SomeIff result (index < field_count) index }
    {
        if index < FIELD_COUNT {
            Some(FieldId { index })
        } else {
            None
        }
    }

    /// The field that is called so, in exactly this spelling.
    pub fn by_name(text: &str) -> Option<FieldId>
        ensures exact { result ≡ field_named text.now }
        ensures found { IfSome result (λ field. (field < field_count) × (name_of field ≡ text.now)) }
        ensures only { (field : ℕ) → field < field_count → name_of field ≡ text.now → result ≡ Some field }
    {
        FieldId::by_bytes(text.as_bytes())
    }

    /// The field whose name has exactly these bytes.
    pub fn by_bytes(name: &[u8]) -> Option<FieldId>
        ensures exact { result ≡ field_named name.now }
        ensures found { IfSome result (λ field. (field < field_count) × (name_of field ≡ name.now)) }
        ensures only { (field : ℕ) → field < field_count → name_of field ≡ name.now → result ≡ Some field }
    {
        for index in 0..FIELD_COUNT {
            let field = FieldId { index };
            if field.name().as_bytes() == name {
                return Some(field);
            }
        }
        None
    }

    /// The number of the field.
    pub fn index(&self) -> usize
        ensures index { result ≡ self.now }
        ensures range { result < field_count }
    {
        self.index
    }

    /// What the field is called in schedules, settings and printed rows.
    pub fn name(&self) -> &'static str
        ensures { result.now ≡ name_of self.now }
    {
        TEXTS[self.index].0
    }

    // What stands before its value in a line: these bytes begin with ` NAME=`.
    pub(crate) fn head(&self) -> &'static [u8; HEAD_ROOM]
        ensures { take (length (name_of self.now) + AROUND) result.now ≡ codes " " ++ name_of self.now ++ codes "=" }
    {
        &HEADS[self.index]
    }

    /// In what the field is counted.
    pub fn unit(&self) -> &'static str
        ensures { result.now ≡ field_unit self.now }
    {
        TEXTS[self.index].1
    }
}

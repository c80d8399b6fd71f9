ghost use Rattle.std.specs.Prelude.{◌≡◌};
ghost use Rattle.archive_record.specs.Table.{places};

use crate::kind::Kind;
use crate::place::Place;
use station_base::FIELD_COUNT;

// The marks of missing values, as the bytes are, without a sign.
const GREATEST_SIGNED: Option<u16> = Some(0x7FFF);

const LEAST_SIGNED: Option<u16> = Some(0x8000);

const GREATEST_BYTE: Option<u16> = Some(0xFF);

macro_rules! place {
    ($offset:literal, $kind:ident, $mark:expr) => {
        Place {
            offset: $offset,
            kind: Kind::$kind,
            mark: $mark,
        }
    };
}

// The place of each field, in the order of their numbers, which is the order of their offsets too.
static PLACES: [Place; FIELD_COUNT] = [
    place!(4, SignedWord, GREATEST_SIGNED), // outTemp
    place!(6, SignedWord, LEAST_SIGNED), // highOutTemp
    place!(8, SignedWord, GREATEST_SIGNED), // lowOutTemp
    place!(10, Word, None), // rain
    place!(12, Word, None), // highRainRate
    place!(14, Word, Some(0)), // barometer
    place!(16, Word, GREATEST_SIGNED), // radiation
    place!(18, Word, None), // windSamples
    place!(20, SignedWord, GREATEST_SIGNED), // inTemp
    place!(22, Byte, GREATEST_BYTE), // inHumidity
    place!(23, Byte, GREATEST_BYTE), // outHumidity
    place!(24, Byte, GREATEST_BYTE), // windSpeed
    place!(25, Byte, None), // windGust
    place!(26, Byte, GREATEST_BYTE), // windGustDir
    place!(27, Byte, GREATEST_BYTE), // windDir
    place!(28, Byte, GREATEST_BYTE), // UV
    place!(29, Byte, None), // ET
    place!(30, Word, GREATEST_SIGNED), // highRadiation
    place!(32, Byte, GREATEST_BYTE), // highUV
    place!(33, Byte, Some(193)), // forecastRule
    place!(34, Degrees, GREATEST_BYTE), // leafTemp1
    place!(35, Degrees, GREATEST_BYTE), // leafTemp2
    place!(36, Byte, GREATEST_BYTE), // leafWet1
    place!(37, Byte, GREATEST_BYTE), // leafWet2
    place!(38, Degrees, GREATEST_BYTE), // soilTemp1
    place!(39, Degrees, GREATEST_BYTE), // soilTemp2
    place!(40, Degrees, GREATEST_BYTE), // soilTemp3
    place!(41, Degrees, GREATEST_BYTE), // soilTemp4
    place!(43, Byte, GREATEST_BYTE), // extraHumid1
    place!(44, Byte, GREATEST_BYTE), // extraHumid2
    place!(45, Degrees, GREATEST_BYTE), // extraTemp1
    place!(46, Degrees, GREATEST_BYTE), // extraTemp2
    place!(47, Degrees, GREATEST_BYTE), // extraTemp3
    place!(48, Byte, GREATEST_BYTE), // soilMoist1
    place!(49, Byte, GREATEST_BYTE), // soilMoist2
    place!(50, Byte, GREATEST_BYTE), // soilMoist3
    place!(51, Byte, GREATEST_BYTE), // soilMoist4
];

/// The place of each field, in the order of their numbers.
#[tactic(auto, unfolding(crate::specs::Table::places, crate::specs::Table::field_places))]
pub fn places() -> &'static [Place; FIELD_COUNT]
    ensures { result.now ≡ places }
{
    &PLACES
}

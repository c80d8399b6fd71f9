ghost use Rattle.std.specs.Prelude.{◌≡◌, ◌+◌, ◌≤◌, ◌↔◌, IsTrue, IfOk, Ok, take, drop};
ghost use Rattle.loop_packet.specs.declared.packet.LoopPacket.{LoopPacket};
ghost use Rattle.loop_packet.specs.Part.{byte_in, signed_byte_in, signed_word_in, word_in};
ghost use Rattle.loop_packet.specs.Reading.{HasValues, IsEnded, HasLoopMark, TellsPacket, packet_bytes};

use crate::fault::LoopFault;
use crate::packet::LoopPacket;
use crate::places;

/// The bytes of a packet.
pub const PACKET_SIZE: usize = 99;

// What all packets have: these bytes first, the type, and these bytes before the check.
pub const MARK: &[u8] = b"LOO";

pub const LOOP_TYPE: u8 = 0;

pub const END: &[u8] = b"\n\r";

/// Reads a packet (Davis serial manual, "LOOP data format").
///
/// Numbers of two bytes have their low byte first, and the check its high byte. Nothing is asked of a field.
pub fn read(bytes: &[u8; PACKET_SIZE]) -> Result<LoopPacket, LoopFault>
    ensures tells { TellsPacket bytes.now result }
    ensures only { (packet : LoopPacket) → TellsPacket bytes.now (Ok packet) → result ≡ Ok packet }
    ensures again { IfOk result (λ packet. bytes.now ≡ packet_bytes packet) }
{
    if !is_row_slot(bytes) {
        return Err(LoopFault::BadMark);
    }
    if bytes[places::TYPE] != LOOP_TYPE {
        return Err(LoopFault::BadType(bytes[places::TYPE]));
    }
    if !is_ended(bytes) {
        return Err(LoopFault::BadEnd);
    }
    if !crc_ccitt::is_good(bytes) {
        return Err(LoopFault::BadCheck);
    }
    Ok(fields(bytes))
}

// Whether the bytes begin as a packet does.
fn is_row_slot(bytes: &[u8; PACKET_SIZE]) -> bool
    ensures { IsTrue result ↔ HasLoopMark bytes.now }
{
    &bytes[..MARK.len()] == MARK
}

// Whether the bytes before the check are those of a packet.
fn is_ended(bytes: &[u8; PACKET_SIZE]) -> bool
    ensures { IsTrue result ↔ IsEnded bytes.now }
{
    &bytes[places::END..places::END + END.len()] == END
}

// The fields of a packet.
#[tactic(auto, unfolding(crate::specs::Reading::HasValues))]
fn fields(bytes: &[u8; PACKET_SIZE]) -> LoopPacket
    ensures { HasValues result bytes.now }
{
    LoopPacket {
        trend: signed_byte(bytes, places::TREND),
        next_slot: word(bytes, places::NEXT_SLOT),
        barometer: word(bytes, places::BAROMETER),
        in_temp: signed_word(bytes, places::IN_TEMP),
        in_humidity: byte(bytes, places::IN_HUMIDITY),
        out_temp: signed_word(bytes, places::OUT_TEMP),
        wind: byte(bytes, places::WIND),
        wind_ten: byte(bytes, places::WIND_TEN),
        wind_dir: word(bytes, places::WIND_DIR),
        extra_temps: many(bytes, places::EXTRA_TEMPS),
        soil_temps: many(bytes, places::SOIL_TEMPS),
        leaf_temps: many(bytes, places::LEAF_TEMPS),
        out_humidity: byte(bytes, places::OUT_HUMIDITY),
        extra_humids: many(bytes, places::EXTRA_HUMIDS),
        rain_rate: word(bytes, places::RAIN_RATE),
        uv: byte(bytes, places::UV),
        radiation: word(bytes, places::RADIATION),
        storm_rain: word(bytes, places::STORM_RAIN),
        storm_date: word(bytes, places::STORM_DATE),
        day_rain: word(bytes, places::DAY_RAIN),
        month_rain: word(bytes, places::MONTH_RAIN),
        year_rain: word(bytes, places::YEAR_RAIN),
        day_et: word(bytes, places::DAY_ET),
        month_et: word(bytes, places::MONTH_ET),
        year_et: word(bytes, places::YEAR_ET),
        soil_moists: many(bytes, places::SOIL_MOISTS),
        leaf_wets: many(bytes, places::LEAF_WETS),
        alarms: many(bytes, places::ALARMS),
        tx_battery: byte(bytes, places::TX_BATTERY),
        console_battery: word(bytes, places::CONSOLE_BATTERY),
        icons: byte(bytes, places::ICONS),
        rule: byte(bytes, places::RULE),
        sunrise: word(bytes, places::SUNRISE),
        sunset: word(bytes, places::SUNSET),
    }
}

// The number of one byte at a place.
#[tactic(auto, unfolding(crate::specs::Part::byte_in))]
fn byte(bytes: &[u8; PACKET_SIZE], at: usize) -> u8
    requires { at + 1 ≤ PACKET_SIZE }
    ensures { result ≡ byte_in (drop at bytes.now) }
{
    bytes[at]
}

// The number of two bytes at a place, the low one first.
#[tactic(auto, unfolding(crate::specs::Part::word_in))]
fn word(bytes: &[u8; PACKET_SIZE], at: usize) -> u16
    requires { at + 2 ≤ PACKET_SIZE }
    ensures { result ≡ word_in (drop at bytes.now) }
{
    u16::from_le_bytes([bytes[at], bytes[at + 1]])
}

// The signed number of two bytes at a place, the low one first.
#[tactic(auto, unfolding(crate::specs::Part::signed_word_in))]
fn signed_word(bytes: &[u8; PACKET_SIZE], at: usize) -> i16
    requires { at + 2 ≤ PACKET_SIZE }
    ensures { result ≡ signed_word_in (drop at bytes.now) }
{
    i16::from_le_bytes([bytes[at], bytes[at + 1]])
}

// The signed number of one byte at a place.
#[tactic(auto, unfolding(crate::specs::Part::signed_byte_in))]
fn signed_byte(bytes: &[u8; PACKET_SIZE], at: usize) -> i8
    requires { at + 1 ≤ PACKET_SIZE }
    ensures { result ≡ signed_byte_in (drop at bytes.now) }
{
    i8::from_le_bytes([bytes[at]])
}

// As many bytes from a place on as are wanted.
fn many<const N: usize>(bytes: &[u8; PACKET_SIZE], at: usize) -> [u8; N]
    requires { at + N ≤ PACKET_SIZE }
    ensures { result ≡ take N (drop at bytes.now) }
{
    let (front, _) = bytes[at..].split_first_chunk().unwrap();
    *front
}

ghost use Rattle.std.specs.Prelude.{◌≡◌, ◌<◌, ◌^◌, [], ◌∷◌, Ok, length, flat_map};
ghost use Rattle.loop_packet.specs.Part.{signed_byte_of, signed_word_of, word_of};
ghost use Rattle.loop_packet.specs.Reading.{TellsPacket, frame_of, packet_bytes};

use crate::packet::LoopPacket;
use crate::reading::{END, LOOP_TYPE, MARK, PACKET_SIZE};
use arrayvec::ArrayVec;

// The bytes of a packet before the check.
const BODY_SIZE: usize = 97;

/// Writes a packet, with its check.
pub fn write(packet: &LoopPacket) -> [u8; PACKET_SIZE]
    ensures bytes { result ≡ packet_bytes packet.now }
    ensures told { TellsPacket result (Ok packet.now) }
{
    joined(&[
        MARK,
        &signed_byte(packet.trend),
        &[LOOP_TYPE],
        &word(packet.next_slot),
        &word(packet.barometer),
        &signed_word(packet.in_temp),
        &byte(packet.in_humidity),
        &signed_word(packet.out_temp),
        &byte(packet.wind),
        &byte(packet.wind_ten),
        &word(packet.wind_dir),
        &packet.extra_temps,
        &packet.soil_temps,
        &packet.leaf_temps,
        &byte(packet.out_humidity),
        &packet.extra_humids,
        &word(packet.rain_rate),
        &byte(packet.uv),
        &word(packet.radiation),
        &word(packet.storm_rain),
        &word(packet.storm_date),
        &word(packet.day_rain),
        &word(packet.month_rain),
        &word(packet.year_rain),
        &word(packet.day_et),
        &word(packet.month_et),
        &word(packet.year_et),
        &packet.soil_moists,
        &packet.leaf_wets,
        &packet.alarms,
        &byte(packet.tx_battery),
        &word(packet.console_battery),
        &byte(packet.icons),
        &byte(packet.rule),
        &word(packet.sunrise),
        &word(packet.sunset),
        END,
    ])
}

// The pieces of a body, one behind the other, and their check.
#[tactic(auto, unfolding(crate::specs::Reading::frame_of))]
fn joined(pieces: &[&[u8]]) -> [u8; PACKET_SIZE]
    requires { length (flat_map (λ piece. piece.now) pieces.now) ≡ BODY_SIZE }
    ensures { result ≡ frame_of (flat_map (λ piece. piece.now) pieces.now) }
{
    let mut frame = [0; PACKET_SIZE];
    let body = body(pieces);
    frame[..BODY_SIZE].copy_from_slice(&body);
    crc_ccitt::seal(&mut frame);
    frame
}

// The pieces, one behind the other.
fn body(pieces: &[&[u8]]) -> ArrayVec<u8, BODY_SIZE>
    requires { length (flat_map (λ piece. piece.now) pieces.now) ≡ BODY_SIZE }
    ensures { result.items ≡ flat_map (λ piece. piece.now) pieces.now }
{
    let mut body = ArrayVec::new();
    for piece in pieces {
        body.try_extend_from_slice(piece).unwrap();
    }
    body
}

// The byte of a number.
fn byte(number: u8) -> [u8; 1]
    ensures bytes { result ≡ number ∷ [] }
    ensures small { number < 2 ^ 8 }
{
    [number]
}

// The bytes of a number, the low one first.
#[tactic(auto, unfolding(crate::specs::Part::word_of))]
fn word(number: u16) -> [u8; 2]
    ensures bytes { result ≡ word_of number }
    ensures small { number < 2 ^ 16 }
{
    number.to_le_bytes()
}

// The bytes of a signed number, the low one first.
#[tactic(auto, unfolding(crate::specs::Part::signed_word_of))]
fn signed_word(number: i16) -> [u8; 2]
    ensures { result ≡ signed_word_of number }
{
    number.to_le_bytes()
}

// The byte of a signed number.
#[tactic(auto, unfolding(crate::specs::Part::signed_byte_of))]
fn signed_byte(number: i8) -> [u8; 1]
    ensures { result ≡ signed_byte_of number }
{
    number.to_le_bytes()
}

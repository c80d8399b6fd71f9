ghost use Rattle.std.specs.Prelude.{◌≡◌, pos, Some};
ghost use Rattle.soft_record.specs.Marks.{latest, no_barometer, no_byte, no_radiation, no_temperature, there};
ghost use Rattle.soft_record.specs.Readings.{IsPacketReading};

use loop_packet::LoopPacket;

// The numbers of a packet that mean that a sensor told none.
const NO_TEMPERATURE: i16 = 32_767;

const NO_BAROMETER: u16 = 0;

const NO_RADIATION: u16 = 32_767;

const NO_BYTE: u8 = 255;

/// The temperature outside, if it is there.
pub fn out_temp(packet: &LoopPacket) -> Option<i32>
    ensures exact { result ≡ there no_temperature packet.now.out_temp }
    ensures small { IsPacketReading result }
{
    let number = packet.out_temp;
    temperature(number)
}

/// The temperature inside, if it is there.
pub fn in_temp(packet: &LoopPacket) -> Option<i32>
    ensures exact { result ≡ there no_temperature packet.now.in_temp }
    ensures small { IsPacketReading result }
{
    let number = packet.in_temp;
    temperature(number)
}

// A temperature, if it is there.
fn temperature(number: i16) -> Option<i32>
    ensures exact { result ≡ there no_temperature number }
    ensures small { IsPacketReading result }
{
    if number == NO_TEMPERATURE {
        return None;
    }
    Some(i32::from(number))
}

/// A barometer's number, if it is there.
pub fn barometer(number: u16) -> Option<i32>
    ensures exact { result ≡ there no_barometer (pos number) }
    ensures small { IsPacketReading result }
{
    if number == NO_BAROMETER {
        return None;
    }
    Some(i32::from(number))
}

/// A radiation, if it is there.
pub fn radiation(number: u16) -> Option<i32>
    ensures exact { result ≡ there no_radiation (pos number) }
    ensures small { IsPacketReading result }
{
    if number == NO_RADIATION {
        return None;
    }
    Some(i32::from(number))
}

/// A humidity, a wind or a UV index, if it is there.
pub fn byte(number: u8) -> Option<i32>
    ensures exact { result ≡ there no_byte (pos number) }
    ensures small { IsPacketReading result }
{
    if number == NO_BYTE {
        return None;
    }
    Some(i32::from(number))
}

/// A rate of rain, which is always there.
pub fn rain_rate(number: u16) -> Option<i32>
    ensures exact { result ≡ Some (pos number) }
    ensures small { IsPacketReading result }
{
    Some(i32::from(number))
}

/// The number, or the one before if it is not there.
pub fn latest(number: Option<i32>, before: Option<i32>) -> Option<i32>
    requires number { IsPacketReading number }
    requires before { IsPacketReading before }
    ensures exact { result ≡ latest number before }
    ensures small { IsPacketReading result }
{
    match number {
        Some(number) => Some(number),
        None => before,
    }
}

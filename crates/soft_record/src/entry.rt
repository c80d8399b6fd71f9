ghost use Rattle.std.specs.Prelude.{◌≡◌, ◌+◌, ◌^◌, ◌≤◌, ◌<◌, IfSome, Some, Ok, drop, length};
ghost use Rattle.station_base.specs.CivilMinute.{first_minute, minute_of};
ghost use Rattle.loop_packet.specs.Part.{word_in};
ghost use Rattle.loop_packet.specs.Reading.{TellsPacket};
ghost use Rattle.loop_packet.specs.declared.packet.LoopPacket as packet;

use loop_packet::{LoopPacket, PACKET_SIZE, read};
use station_base::Stamp;

/// The bytes of an entry: the words of date and time, the second, and a packet.
pub const ENTRY_SIZE: usize = PACKET + PACKET_SIZE;

// Where the parts of an entry stand.
const DATE: usize = 0;

const TIME: usize = 2;

const SECOND: usize = 4;

const PACKET: usize = 5;

const SECONDS_OF_MINUTE: u8 = 60;

/// A packet with the moment at which it was heard.
#[derive(Clone, Copy, Debug)]
pub struct Entry {
    /// The minute.
    pub stamp: Stamp,
    /// The second of the minute.
    pub second: u8,
    /// What was heard.
    pub packet: LoopPacket,
}

impl Entry {
    ghost use Rattle.soft_record.specs.Entry.{SpellsEntry, full_minute, moment};
    ghost use Rattle.soft_record.specs.declared.entry.Entry as heard;

    /// The entry of these bytes, if they are one.
    pub fn read(bytes: &[u8]) -> Option<Entry>
        ensures found { IfSome result (λ entry. SpellsEntry bytes.now entry × (entry.second < 60)) }
        ensures only { (entry : heard.Entry) → SpellsEntry bytes.now entry → entry.second < 60 → result ≡ Some entry }
    {
        if bytes.len() != ENTRY_SIZE {
            return None;
        }
        let stamp = Stamp::from_words(word(bytes, DATE), word(bytes, TIME))?;
        let second = bytes[SECOND];
        if second >= SECONDS_OF_MINUTE {
            return None;
        }
        let packet = packet_in(bytes)?;
        Some(Entry {
            stamp,
            second,
            packet,
        })
    }

    /// How many seconds lie between 1970-01-01 00:00:00 and the entry.
    pub fn moment(&self) -> u64
        ensures { result ≡ moment self.now }
    {
        let second = u64::from(self.second);
        u64::from(SECONDS_OF_MINUTE) * u64::from(self.stamp.minute()) + second
    }

    /// The earliest full minute that is not before the entry, counted from 1970-01-01 00:00.
    #[tactic(auto, using(station_base::proofs::Minutes::first_minute_number))]
    pub fn full_minute(&self) -> u32
        ensures minute { result ≡ full_minute self.now }
        ensures from { minute_of first_minute ≤ result }
        ensures small { result < 2 ^ 31 }
    {
        let minute = self.stamp.minute();
        if self.second == 0 { minute } else { minute + 1 }
    }
}

// The number of two bytes at a place, the low one first.
#[tactic(auto, unfolding(loop_packet::specs::Part::word_in))]
fn word(bytes: &[u8], at: usize) -> u16
    requires { at + 2 ≤ length bytes.now }
    ensures { result ≡ word_in (drop at bytes.now) }
{
    u16::from_le_bytes([bytes[at], bytes[at + 1]])
}

// The packet of an entry, if it is one.
fn packet_in(bytes: &[u8]) -> Option<LoopPacket>
    requires { length bytes.now ≡ ENTRY_SIZE }
    ensures found { IfSome result (λ p. TellsPacket (drop 5 bytes.now) (Ok p)) }
    ensures only { (p : packet.LoopPacket) → TellsPacket (drop 5 bytes.now) (Ok p) → result ≡ Some p }
{
    let mut packet = [0; PACKET_SIZE];
    packet.copy_from_slice(&bytes[PACKET..]);
    match read(&packet) {
        Ok(packet) => Some(packet),
        Err(_) => None,
    }
}

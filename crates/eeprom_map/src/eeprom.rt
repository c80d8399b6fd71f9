ghost use Rattle.std.specs.Prelude.{◌≡◌, ◌+◌, ◌≤◌, ◌↔◌, IsTrue, IfOk, IsNone, length, take, drop, vec_len};
ghost use Rattle.std.specs.Bool.{OnTrue, OnFalse};
ghost use Rattle.std.specs.Option.{SomeIff};
ghost use Rattle.station_base.specs.Period.{IsPeriod};
ghost use Rattle.eeprom_map.specs.Memory.{new_memory, zero_memory, signed_at, latitude_in, longitude_in, elevation_in, setup_in, minutes_in, with_period, with_bytes, eeprom_size};
ghost use Rattle.eeprom_map.specs.Rain.{collector, rain_unit_of};

use crate::rain::RainUnit;
use station_base::{OutOfMemory, Period};
use std::alloc::Global;
use std::marker::Model;

/// The bytes of the memory. A place is below this, as in a command that names one.
pub const EEPROM_SIZE: u16 = 4096;

// The same as a length.
const LENGTH: usize = EEPROM_SIZE as usize;

/// The place of the latitude, two bytes.
pub const LATITUDE: u16 = 0x0B;

/// The place of the longitude, two bytes.
pub const LONGITUDE: u16 = 0x0D;

/// The place of the elevation, two bytes.
pub const ELEVATION: u16 = 0x0F;

/// The place of the setup bits, one byte, of which bits 4 and 5 are the rain collector.
pub const SETUP: u16 = 0x2B;

/// The place of the archive period, one byte.
pub const PERIOD: u16 = 0x2D;

/// The memory of a console (Davis serial manual, "EEPROM Configuration Settings").
///
/// A contract sees the list of its 4,096 bytes. Numbers of two bytes have their low byte first. Bytes of which no method
/// speaks are kept and not read.
#[derive(Debug, Drop)]
pub struct Eeprom {
    bytes: Vec<u8>,
}

impl Model for Eeprom {
    ghost use Rattle.std.specs.Prelude.{◌≡◌, List, ℕ, length};
    ghost use Rattle.eeprom_map.specs.Memory.{eeprom_size};

    ghost Value = { List ℕ };

    ghost view = { λ eeprom. eeprom.bytes.items };

    ghost invariant = { λ eeprom. length eeprom.bytes.items ≡ eeprom_size };
}

impl Eeprom {
    /// A memory of zeros, but for the archive period. It is the one call that takes memory.
    pub fn new(alloc: Global, period: Period) -> Result<Eeprom, OutOfMemory>
        ensures { IfOk result (λ eeprom. eeprom ≡ new_memory period) }
    {
        let mut bytes = zeros(alloc)?;
        bytes[usize::from(PERIOD)] = period.minutes() as u8;
        Ok(Eeprom { bytes })
    }

    // The signed number of two bytes at a place.
    fn signed(&self, place: u16) -> i16
        requires { place + 2 ≤ eeprom_size }
        ensures { result ≡ signed_at place self.now }
    {
        let place = usize::from(place);
        i16::from_le_bytes([self.bytes[place], self.bytes[place + 1]])
    }

    /// The latitude in tenths of a degree, north positive.
    pub fn latitude(&self) -> i16
        ensures { result ≡ latitude_in self.now }
    {
        self.signed(LATITUDE)
    }

    /// The longitude in tenths of a degree, east positive.
    pub fn longitude(&self) -> i16
        ensures { result ≡ longitude_in self.now }
    {
        self.signed(LONGITUDE)
    }

    /// The elevation in feet.
    pub fn elevation(&self) -> i16
        ensures { result ≡ elevation_in self.now }
    {
        self.signed(ELEVATION)
    }

    /// The archive period, where the byte is one.
    pub fn period(&self) -> Option<Period>
        ensures { SomeIff result (IsPeriod (minutes_in self.now)) (minutes_in self.now) }
    {
        Period::from_minutes(u16::from(self.bytes[usize::from(PERIOD)]))
    }

    /// The unit of the rain collector, where its two bits name one: 3 names none.
    pub fn rain_unit(&self) -> Option<RainUnit>
        ensures unit { result ≡ rain_unit_of (setup_in self.now) }
        ensures none { IsNone result ↔ (collector (setup_in self.now) ≡ 3) }
    {
        match self.bytes[usize::from(SETUP)] / 16 % 4 {
            0 => Some(RainUnit::Hundredths),
            1 => Some(RainUnit::Fifths),
            2 => Some(RainUnit::Tenths),
            _ => None,
        }
    }

    /// Makes this the archive period. No other byte changes.
    pub fn set_period(&mut self, period: Period)
        ensures { self.new ≡ with_period period self.old }
    {
        self.bytes[usize::from(PERIOD)] = period.minutes() as u8;
    }

    /// So many bytes from a place on.
    pub fn bytes(&self, at: u16, count: u16) -> &[u8]
        requires { at + count ≤ eeprom_size }
        ensures bytes { result.now ≡ take count (drop at self.now) }
        ensures count { length result.now ≡ count }
    {
        let at = usize::from(at);
        &self.bytes[at..at + usize::from(count)]
    }

    /// Puts bytes from a place on, and says whether it did: it does not where they would pass the end of the memory.
    pub fn put(&mut self, at: u16, bytes: &[u8]) -> bool
        ensures fits { IsTrue result ↔ (at + length bytes.now ≤ eeprom_size) }
        ensures put { OnTrue result (self.new ≡ with_bytes at bytes.now self.old) }
        ensures refused { OnFalse result (self.new ≡ self.old) }
    {
        let at = usize::from(at);
        if at + bytes.len() > LENGTH {
            return false;
        }
        self.bytes[at..at + bytes.len()].copy_from_slice(bytes);
        true
    }
}

// As many zeros as the memory has bytes.
#[tactic(auto, unfolding(crate::specs::Memory::zero_memory))]
fn zeros(alloc: Global) -> Result<Vec<u8>, OutOfMemory>
    ensures bytes { IfOk result (λ bytes. bytes.items ≡ zero_memory) }
    ensures size { IfOk result (λ bytes. vec_len bytes ≡ eeprom_size) }
{
    Ok(vec![in alloc; 0; LENGTH]?)
}

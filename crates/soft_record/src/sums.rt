ghost use Rattle.std.specs.Prelude.{◌≡◌, ◌<◌, ◌+◌, ◌++◌, ◌∷◌, [], List, Some, None};
ghost use Rattle.soft_record.specs.Interval.{Rising, rise_between, rising_entry};
ghost use Rattle.soft_record.specs.IntervalEnd.{longest};

use crate::entry::Entry;
use crate::reading::{barometer, byte, in_temp, latest, out_temp, radiation, rain_rate};
use crate::spread::Spread;
use loop_packet::LoopPacket;

/// What the entries of one interval come to.
#[derive(Clone, Copy, Debug)]
pub struct Sums {
    pub out_temp: Spread,
    pub in_temp: Spread,
    pub barometer: Spread,
    pub radiation: Spread,
    pub wind: Spread,
    pub uv: Spread,
    pub rain_rate: Spread,
    pub in_humidity: Option<i32>,
    pub out_humidity: Option<i32>,
    pub rain: u32,
    pub et: u32,
}

impl Sums {
    ghost use Rattle.soft_record.specs.Sums.{AreSmall, AreSumsOf, entries_in};

    /// Of no entries.
    pub fn new() -> Sums
        ensures sums { AreSumsOf [] result }
        ensures small { AreSmall result }
        ensures entries { entries_in result ≡ 0 }
    {
        Sums {
            out_temp: Spread::new(),
            in_temp: Spread::new(),
            barometer: Spread::new(),
            radiation: Spread::new(),
            wind: Spread::new(),
            uv: Spread::new(),
            rain_rate: Spread::new(),
            in_humidity: None,
            out_humidity: None,
            rain: 0,
            et: 0,
        }
    }

    /// Of the first entry of all, with which nothing rose.
    pub fn first(entry: &Entry) -> Sums
        ensures sums { AreSumsOf (rising_entry None entry.now ∷ []) result }
        ensures small { AreSmall result }
        ensures entries { entries_in result ≡ 1 }
    {
        Sums::new().with_packet(&entry.packet, 0, 0)
    }

    /// With one entry more, behind the one before.
    pub fn with(&self, before: &Entry, entry: &Entry) -> Sums
        requires small { AreSmall self.now }
        requires few { entries_in self.now < longest }
        ensures sums { (rs : List Rising) → AreSumsOf rs self.now
            → AreSumsOf (rs ++ rising_entry (Some before.now) entry.now ∷ []) result }
        ensures small { AreSmall result }
        ensures entries { entries_in result ≡ entries_in self.now + 1 }
    {
        let rain = rise(before.packet.day_rain, entry.packet.day_rain);
        let et = rise(before.packet.day_et, entry.packet.day_et);
        self.with_packet(&entry.packet, rain, et)
    }

    // With one packet more, by which rain and evapotranspiration of the day rose so.
    fn with_packet(&self, packet: &LoopPacket, rain: u16, et: u16) -> Sums
        requires small { AreSmall self.now }
        requires few { entries_in self.now < longest }
        ensures sums { (rs : List Rising) (r : Rising) → AreSumsOf rs self.now → r.entry.packet ≡ packet.now
            → r.rain ≡ rain → r.et ≡ et
            → AreSumsOf (rs ++ r ∷ []) result }
        ensures small { AreSmall result }
        ensures entries { entries_in result ≡ entries_in self.now + 1 }
    {
        let p = packet;
        Sums {
            out_temp: self.out_temp.with(out_temp(p)),
            in_temp: self.in_temp.with(in_temp(p)),
            barometer: self.barometer.with(barometer(p.barometer)),
            radiation: self.radiation.with(radiation(p.radiation)),
            wind: self.wind.with(byte(p.wind)),
            uv: self.uv.with(byte(p.uv)),
            rain_rate: self.rain_rate.with(rain_rate(p.rain_rate)),
            in_humidity: latest(byte(p.in_humidity), self.in_humidity),
            out_humidity: latest(byte(p.out_humidity), self.out_humidity),
            rain: self.rain + u32::from(rain),
            et: self.et + u32::from(et),
        }
    }
}

// By how much a number of the day rose. One that fell began again.
fn rise(before: u16, now: u16) -> u16
    ensures { result ≡ rise_between before now }
{
    if now < before { now } else { now - before }
}

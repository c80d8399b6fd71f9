ghost use Rattle.loop_packet.specs.Blank.{PacketIsBlank};

/// What a console's sensors say at one moment: the LOOP packet (Davis serial manual, "LOOP data format").
///
/// Each field is the raw number that the packet has, whatever it means. The text of a field names its unit.
#[derive(Clone, Copy, Debug, Default, PartialEq, Eq)]
pub struct LoopPacket {
    /// The change of the barometer in three hours: -60, -20, 0, 20 or 60, where 80 means that none is known.
    pub trend: i8,
    /// The slot of the archive that is written next, 0 to 2,559.
    pub next_slot: u16,
    /// In 0.001 inHg.
    pub barometer: u16,
    /// The temperature inside, in 0.1 F.
    pub in_temp: i16,
    /// The humidity inside, in percent.
    pub in_humidity: u8,
    /// The temperature outside, in 0.1 F.
    pub out_temp: i16,
    /// The wind speed, in mph.
    pub wind: u8,
    /// The wind speed over ten minutes, in mph.
    pub wind_ten: u8,
    /// Where the wind comes from, in degrees.
    pub wind_dir: u16,
    /// Seven extra temperatures, in F and 90 more.
    pub extra_temps: [u8; 7],
    /// Four soil temperatures, in F and 90 more.
    pub soil_temps: [u8; 4],
    /// Four leaf temperatures, in F and 90 more.
    pub leaf_temps: [u8; 4],
    /// The humidity outside, in percent.
    pub out_humidity: u8,
    /// Seven extra humidities, in percent.
    pub extra_humids: [u8; 7],
    /// In clicks an hour.
    pub rain_rate: u16,
    /// The UV index, in 0.1.
    pub uv: u8,
    /// The solar radiation, in W/m2.
    pub radiation: u16,
    /// The rain of this storm, in clicks.
    pub storm_rain: u16,
    /// The day on which this storm began, as a word of month, day and year.
    pub storm_date: u16,
    /// The rain of this day, in clicks.
    pub day_rain: u16,
    /// The rain of this month, in clicks.
    pub month_rain: u16,
    /// The rain of this year, in clicks.
    pub year_rain: u16,
    /// The evapotranspiration of this day, in 0.001 inch.
    pub day_et: u16,
    /// The evapotranspiration of this month, in 0.01 inch.
    pub month_et: u16,
    /// The evapotranspiration of this year, in 0.01 inch.
    pub year_et: u16,
    /// Four soil moistures, in centibar.
    pub soil_moists: [u8; 4],
    /// Four leaf wetnesses, 0 to 15.
    pub leaf_wets: [u8; 4],
    /// Which alarms are on, a bit each.
    pub alarms: [u8; 16],
    /// Which transmitters have a low battery, a bit each.
    pub tx_battery: u8,
    /// The voltage of the console's battery, as its converter gives it.
    pub console_battery: u16,
    /// The icons of the forecast, a bit each.
    pub icons: u8,
    /// The number of the forecast's rule.
    pub rule: u8,
    /// The time of sunrise: hour times 100, and minute.
    pub sunrise: u16,
    /// The time of sunset: hour times 100, and minute.
    pub sunset: u16,
}

impl LoopPacket {
    /// The packet with every field 0, which is the default.
    pub fn blank() -> LoopPacket
        ensures { PacketIsBlank result }
    {
        LoopPacket::default()
    }
}

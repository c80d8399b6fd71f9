// Where the parts of a packet stand.

pub const TREND: usize = 3;

pub const TYPE: usize = 4;

pub const NEXT_SLOT: usize = 5;

pub const BAROMETER: usize = 7;

pub const IN_TEMP: usize = 9;

pub const IN_HUMIDITY: usize = 11;

pub const OUT_TEMP: usize = 12;

pub const WIND: usize = 14;

pub const WIND_TEN: usize = 15;

pub const WIND_DIR: usize = 16;

pub const EXTRA_TEMPS: usize = 18;

pub const SOIL_TEMPS: usize = 25;

pub const LEAF_TEMPS: usize = 29;

pub const OUT_HUMIDITY: usize = 33;

pub const EXTRA_HUMIDS: usize = 34;

pub const RAIN_RATE: usize = 41;

pub const UV: usize = 43;

pub const RADIATION: usize = 44;

pub const STORM_RAIN: usize = 46;

pub const STORM_DATE: usize = 48;

pub const DAY_RAIN: usize = 50;

pub const MONTH_RAIN: usize = 52;

pub const YEAR_RAIN: usize = 54;

pub const DAY_ET: usize = 56;

pub const MONTH_ET: usize = 58;

pub const YEAR_ET: usize = 60;

pub const SOIL_MOISTS: usize = 62;

pub const LEAF_WETS: usize = 66;

pub const ALARMS: usize = 70;

pub const TX_BATTERY: usize = 86;

pub const CONSOLE_BATTERY: usize = 87;

pub const ICONS: usize = 89;

pub const RULE: usize = 90;

pub const SUNRISE: usize = 91;

pub const SUNSET: usize = 93;

pub const END: usize = 95;

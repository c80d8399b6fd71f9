ghost use Rattle.std.specs.Prelude.{◌≡◌, true, length};
ghost use Rattle.station_base.specs.ClockTime.{can_be_shown, clock_bytes, time_shown};

use station_base::ClockTime;

/// The bytes of a clock.
pub const CLOCK_SIZE: usize = 6;

// The year that a year's byte counts from.
const FIRST_YEAR: u16 = 1900;

// The time that a clock's bytes show.
pub fn time_shown(bytes: &[u8]) -> ClockTime
    requires { length bytes.now ≡ CLOCK_SIZE }
    ensures { result ≡ time_shown bytes.now }
{
    ClockTime {
        year: FIRST_YEAR + u16::from(bytes[5]),
        month: bytes[4],
        day: bytes[3],
        hour: bytes[2],
        minute: bytes[1],
        second: bytes[0],
    }
}

// The bytes that show a time.
pub fn clock_bytes(time: &ClockTime) -> [u8; CLOCK_SIZE]
    requires { can_be_shown time.now ≡ true }
    ensures { result ≡ clock_bytes time.now }
{
    let year = (time.year - FIRST_YEAR) as u8;
    [
        time.second,
        time.minute,
        time.hour,
        time.day,
        time.month,
        year,
    ]
}

ghost use Rattle.std.specs.Prelude.{◌≡◌, ◌+◌, ◌*◌, ◌<◌, ◌≤◌, ◌++◌, codes, length, option_map};
ghost use Rattle.std.specs.Fmt.{decimal};
ghost use Rattle.arrayvec.specs.ArrayVec.{array_vec_len};
ghost use Rattle.station_base.specs.DayText.{IsDayNumber};
ghost use Rattle.daily_summary.specs.Bounds.{IsInBounds};
ghost use Rattle.daily_summary.specs.Summary.{tenths};
ghost use Rattle.climate_table.specs.Degrees.{outside, rain};
ghost use Rattle.climate_table.specs.Line.{climate_line, degree_line, fraction_text, extreme_text, extremes_text, number_or_dash, rain_text};

use crate::climate_summary::{ClimateSummary, RAIN};
use crate::degree_days::{DegreeDays, OUTSIDE};
use crate::totals::Fraction;
use daily_summary::{DaySummary, FieldSum};
use station_base::{DIGITS, DayNumber, FieldId, Stamp, push_bytes, push_count};
use weather_reports::{PIECE, Pending, ROOM, push_signed};

// The most bytes of the name of a month.
const NAME: usize = 7;

// The bytes of a day.
const DAY: usize = 10;

// The most bytes of what stands before a number.
const WORD: usize = 12;

// The most bytes of a number behind its word, and of an extreme with its day.
const NUMBER: usize = WORD + DIGITS;

const EXTREME: usize = NUMBER + 4 + DAY;

// Appends `degree YYYY-MM-DD hdd N/T cdd N/T`.
pub fn push_degree_line(pending: &mut Pending, day: DayNumber, degrees: &DegreeDays)
    requires room { array_vec_len pending.old < PIECE }
    requires day { IsDayNumber day.0 }
    ensures { pending.new.items ≡ pending.old.items ++ degree_line day.0 degrees.now }
{
    push_bytes(pending, b"degree ");
    push_bytes(pending, &day.text());
    push_fraction(pending, b" hdd ", &degrees.heating);
    push_fraction(pending, b" cdd ", &degrees.cooling);
    push_bytes(pending, b"\n");
}

// Appends a name and a fraction, `N/T`.
fn push_fraction(pending: &mut Pending, name: &[u8], fraction: &Fraction)
    requires room { array_vec_len pending.old + WORD + 2 * NUMBER ≤ ROOM }
    requires name { length name.now ≤ WORD }
    ensures text { pending.new.items ≡ pending.old.items ++ name.now ++ fraction_text fraction.now }
    ensures length { array_vec_len pending.new ≤ array_vec_len pending.old + WORD + 2 * NUMBER }
{
    push_count(pending, name, fraction.numerator);
    push_count(pending, b"/", fraction.denominator);
}

// Appends `climate`, the name of a month or of a year, and the totals of its days.
#[tactic(auto, unfolding(crate::specs::Line::climate_line))]
pub fn push_climate_line(pending: &mut Pending, name: &[u8], summary: &ClimateSummary)
    requires room { array_vec_len pending.old < PIECE }
    requires name { length name.now ≤ NAME }
    requires bounds { IsInBounds summary.now.sums }
    ensures { pending.new.items ≡ pending.old.items ++ climate_line name.now summary.now }
{
    push_bytes(pending, b"climate ");
    push_bytes(pending, name);
    push_count(pending, b" days ", u64::from(summary.days));
    push_temperatures(pending, &summary.sums);
    push_totals(pending, summary);
    push_bytes(pending, b"\n");
}

// Appends the sum of the rain, the days that had some, and the totals of heating and cooling.
fn push_totals(pending: &mut Pending, summary: &ClimateSummary)
    requires room { array_vec_len pending.old + 4 * NUMBER ≤ ROOM }
    ensures text { pending.new.items ≡ pending.old.items ++ codes " rain " ++ rain_text (rain summary.now.sums)
        ++ codes " wet " ++ decimal summary.now.wet ++ codes " hdd " ++ decimal summary.now.heating
        ++ codes " cdd " ++ decimal summary.now.cooling }
    ensures length { array_vec_len pending.new ≤ array_vec_len pending.old + 4 * NUMBER }
{
    push_rain(pending, &summary.sums.fields[RAIN]);
    push_count(pending, b" wet ", u64::from(summary.wet));
    push_count(pending, b" hdd ", summary.heating);
    push_count(pending, b" cdd ", summary.cooling);
}

// Appends the mean of the outside temperatures, and the greatest and the least of them.
fn push_temperatures(pending: &mut Pending, sums: &DaySummary)
    requires room { array_vec_len pending.old + NUMBER + 2 * EXTREME ≤ ROOM }
    requires bounds { IsInBounds sums.now }
    ensures text { pending.new.items ≡ pending.old.items ++ codes " mean "
        ++ number_or_dash (option_map tenths (outside sums.now)) ++ extremes_text (outside sums.now) }
    ensures length { array_vec_len pending.new ≤ array_vec_len pending.old + NUMBER + 2 * EXTREME }
{
    push_mean(pending, sums);
    push_extremes(pending, &sums.fields[OUTSIDE]);
}

// Appends the mean of the outside temperatures.
fn push_mean(pending: &mut Pending, sums: &DaySummary)
    requires room { array_vec_len pending.old + NUMBER ≤ ROOM }
    requires bounds { IsInBounds sums.now }
    ensures text { pending.new.items ≡ pending.old.items ++ codes " mean "
        ++ number_or_dash (option_map tenths (outside sums.now)) }
    ensures length { array_vec_len pending.new ≤ array_vec_len pending.old + NUMBER }
{
    let field = FieldId::from_index(OUTSIDE).unwrap();
    push_value(pending, b" mean ", sums.average_tenths(field));
}

// Appends the greatest and the least of the outside temperatures, each with its day.
fn push_extremes(pending: &mut Pending, outside: &Option<FieldSum>)
    requires room { array_vec_len pending.old + 2 * EXTREME ≤ ROOM }
    ensures text { pending.new.items ≡ pending.old.items ++ extremes_text outside.now }
    ensures length { array_vec_len pending.new ≤ array_vec_len pending.old + 2 * EXTREME }
{
    match outside {
        Some(sum) => {
            push_extreme(pending, b" high ", sum.greatest, sum.greatest_at);
            push_extreme(pending, b" low ", sum.least, sum.least_at);
        }
        None => push_bytes(pending, b" high - at - low - at -"),
    }
}

// Appends an extreme and the archive day of its stamp.
fn push_extreme(pending: &mut Pending, name: &[u8], value: i32, at: Stamp)
    requires room { array_vec_len pending.old + EXTREME ≤ ROOM }
    requires name { length name.now ≤ WORD }
    ensures text { pending.new.items ≡ pending.old.items ++ name.now ++ extreme_text value at }
    ensures length { array_vec_len pending.new ≤ array_vec_len pending.old + EXTREME }
{
    push_signed(pending, name, i64::from(value));
    push_bytes(pending, b" at ");
    push_bytes(pending, &at.archive_day().text());
}

// Appends the sum of the rain.
fn push_rain(pending: &mut Pending, rain: &Option<FieldSum>)
    requires room { array_vec_len pending.old + NUMBER ≤ ROOM }
    ensures text { pending.new.items ≡ pending.old.items ++ codes " rain " ++ rain_text rain.now }
    ensures length { array_vec_len pending.new ≤ array_vec_len pending.old + NUMBER }
{
    push_value(pending, b" rain ", rain.as_ref().map(|sum| sum.sum));
}

// Appends a number behind its name, or a dash.
fn push_value(pending: &mut Pending, name: &[u8], value: Option<i64>)
    requires room { array_vec_len pending.old + NUMBER ≤ ROOM }
    requires name { length name.now ≤ WORD }
    ensures text { pending.new.items ≡ pending.old.items ++ name.now ++ number_or_dash value }
    ensures length { array_vec_len pending.new ≤ array_vec_len pending.old + NUMBER }
{
    match value {
        Some(number) => push_signed(pending, name, number),
        None => {
            push_bytes(pending, name);
            push_bytes(pending, b"-");
        }
    }
}

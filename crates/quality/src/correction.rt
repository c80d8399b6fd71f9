ghost use Rattle.std.specs.Prelude.{◌≡◌, ◌≢◌, ℕ, ◌<◌, true, false, ◌+ℤ◌, ◌*ℤ◌, ◌≤ℤ◌, ◌<ℤ◌, pos, All};
ghost use Rattle.std.specs.Int.{int_div_euclid};
ghost use Rattle.jiff.specs.Words.{IsWithin};
ghost use Rattle.station_base.specs.FieldSet.{is_member, AreMissing};
ghost use Rattle.station_base.specs.RowLine.{IsPrintable};
ghost use Rattle.settings_file.specs.Calibration.{IsCalibration};
ghost use Rattle.quality.specs.Corrected.{IsReading, IsUnlimited, calibrated, scaled, is_kept, corrected_value, corrected_values, is_taken, taken, was_taken, corrected_row};
ghost use Rattle.station_base.specs.Fields.{field_count};
ghost use Rattle.station_base.specs.Limits.{farthest_value};

use settings_file::{Calibration, Limits, Settings};
use station_base::{FIELD_COUNT, FieldId, FieldSet, Row, Stamp};

/// The row as it is kept: each value is calibrated, and is missing then where it is below the least or above the greatest
/// value of its field, by the calibration and the limits in force at the row's stamp. A missing value stays missing.
/// `limited` names the fields that had a value and are made missing so; the row handed in names none. Values are to lie
/// within 65,535 either way, as those of an archive record do.
pub fn corrected(settings: &Settings, row: &Row) -> Row
    requires reading { All IsReading row.now.values }
    requires unlimited { IsUnlimited row.now }
    ensures exact { result ≡ corrected_row settings.now row.now }
    ensures printable { All IsPrintable result.values }
    ensures missing { AreMissing result.limited result.values }
    ensures named { (field : ℕ) → field < field_count
        → is_member result.limited field ≡ was_taken row.now.values result.values field }
{
    let values = corrected_values(settings, row.stamp, &row.values);
    Row {
        stamp: row.stamp,
        interval: row.interval,
        values,
        limited: taken(&row.values, &values),
    }
}

// The values of all fields in a row of this stamp, each by its own calibration and limits.
fn corrected_values(
    settings: &Settings,
    stamp: Stamp,
    values: &[Option<i32>; FIELD_COUNT],
) -> [Option<i32>; FIELD_COUNT]
    requires { All IsReading values.now }
    ensures exact { result ≡ corrected_values settings.now stamp 0 values.now }
    ensures printable { All IsPrintable result }
{
    let mut corrected = [None; FIELD_COUNT];
    for (index, value) in values.iter().enumerate() {
        let field = FieldId::from_index(index).unwrap();
        corrected[index] = corrected_value(
            settings.calibration(field, stamp),
            settings.limits(field, stamp),
            *value,
        );
    }
    corrected
}

// The fields that had a value and have none now, as the bits of a set.
fn taken(before: &[Option<i32>; FIELD_COUNT], after: &[Option<i32>; FIELD_COUNT]) -> u64
    ensures exact { result ≡ taken before.now after.now }
    ensures named { (field : ℕ) → field < field_count → is_member result field ≡ was_taken before.now after.now field }
    ensures missing { AreMissing result after.now }
{
    let mut fields = FieldSet::empty();
    for (index, value) in before.iter().enumerate() {
        let now = after[index];
        fields = with_taken(fields, FieldId::from_index(index).unwrap(), *value, now);
    }
    fields.bits()
}

// These fields, and this one where it had a value and has none now.
fn with_taken(fields: FieldSet, field: FieldId, before: Option<i32>, after: Option<i32>) -> FieldSet
    ensures added { is_taken before after ≡ true → is_member result field ≡ true }
    ensures kept { is_taken before after ≡ false → result ≡ fields }
    ensures others { (other : ℕ) → other ≢ field → is_member result other ≡ is_member fields other }
{
    if before.is_some() && after.is_none() {
        fields.with(field)
    } else {
        fields
    }
}

// A value calibrated, or none where its limits refuse that.
fn corrected_value(calibration: Calibration, limits: Limits, value: Option<i32>) -> Option<i32>
    requires calibration { IsCalibration calibration }
    requires reading { IsReading value }
    ensures exact { result ≡ corrected_value calibration limits value }
    ensures printable { IsPrintable result }
{
    let value = value?;
    let calibrated = calibrate(calibration, value);
    is_kept(limits, calibrated).then_some(calibrated)
}

// The value scaled, and `add` more.
#[tactic(auto, using(jiff_core::proofs::SignedLemmas::signed_arith))]
fn calibrate(calibration: Calibration, value: i32) -> i32
    requires calibration { IsCalibration calibration }
    requires reading { IsWithin 65535 value }
    ensures exact { result ≡ calibrated calibration value }
    ensures printable { IsWithin farthest_value result }
{
    scale(calibration, value) + calibration.add
}

// The value times `num`, divided by `den`.
fn scale(calibration: Calibration, value: i32) -> i32
    requires calibration { IsCalibration calibration }
    requires reading { IsWithin 65535 value }
    ensures exact { result ≡ scaled calibration value }
    ensures range { IsWithin 1048560 result }
{
    floor_div(value * calibration.num, calibration.den)
}

// The greatest number whose product with the divisor is at most the dividend.
fn floor_div(dividend: i32, divisor: i32) -> i32
    requires { pos 0 <ℤ divisor }
    ensures exact { result ≡ int_div_euclid dividend divisor }
    ensures at_most { (result *ℤ divisor) ≤ℤ dividend }
    ensures greatest { dividend <ℤ ((result *ℤ divisor) +ℤ divisor) }
{
    dividend.div_euclid(divisor)
}

// Whether a value lies within the limits.
fn is_kept(limits: Limits, value: i32) -> bool
    ensures { result ≡ is_kept limits value }
{
    limits.least.is_none_or(|least| least <= value)
        && limits.greatest.is_none_or(|greatest| value <= greatest)
}

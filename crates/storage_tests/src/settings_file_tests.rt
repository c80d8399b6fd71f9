use settings_file::{Section, SettingsFault};
use station_base::FieldId;
use std::test::Fail;

const RAIN: usize = 3;

fn field(index: usize) -> Option<FieldId> {
    FieldId::from_index(index)
}

fn unknown(section: Section, field: Option<FieldId>, index: u32) -> SettingsFault {
    SettingsFault::UnknownKey {
        section,
        field,
        index,
    }
}

fn number(section: Section, field: Option<FieldId>, index: u32) -> SettingsFault {
    SettingsFault::BadNumber {
        section,
        field,
        index,
    }
}

// The field with the longest name.
fn longest() -> Option<FieldId> {
    FieldId::by_name("highRadiation")
}

#[test]
fn each_fault_has_its_line(rt: HostRuntime) -> Result<(), Fail> {
    let rain = field(RAIN).ok_or("no field")?;
    let cases: [(SettingsFault, &[u8]); 14] = [
        (SettingsFault::Syntax, b"settings syntax\n"),
        (
            unknown(Section::Top, None, 0),
            b"settings unknown key top - 0\n",
        ),
        (
            unknown(Section::Calibration, longest(), u32::MAX),
            b"settings unknown key calibration highRadiation 4294967295\n",
        ),
        (
            number(Section::Limits, Some(rain), 10),
            b"settings bad number limits rain 10\n",
        ),
        (
            SettingsFault::LimitsCrossed(rain),
            b"settings crossed rain\n",
        ),
        (SettingsFault::BadPeriod, b"settings bad period\n"),
        (
            unknown(Section::Change { at: 0 }, None, 1),
            b"settings unknown key change-0 - 1\n",
        ),
        (
            unknown(Section::ChangeCalibration { at: 255 }, longest(), u32::MAX),
            b"settings unknown key change-255-calibration highRadiation 4294967295\n",
        ),
        (
            number(Section::ChangeLimits { at: 15 }, Some(rain), 1),
            b"settings bad number change-15-limits rain 1\n",
        ),
        (
            SettingsFault::TooManyChanges,
            b"settings too many changes\n",
        ),
        (
            SettingsFault::BadFrom { index: 2 },
            b"settings bad from 2\n",
        ),
        (
            SettingsFault::ChangeOrder { index: 1 },
            b"settings change order 1\n",
        ),
        (
            SettingsFault::CrossedInChange { at: 3, field: rain },
            b"settings crossed rain change 3\n",
        ),
        (SettingsFault::OutOfMemory, b""),
    ];
    for (fault, line) in cases {
        assert_eq!(rt; fault.line().as_slice(), line);
    }
    Ok(())
}

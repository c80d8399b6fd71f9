use station_base::FieldId;

/// The table of a settings file in which a key stands.
#[derive(Clone, Copy, Debug, PartialEq, Eq)]
pub enum Section {
    /// Outside all tables.
    Top,
    /// In `calibration`, or in the table of one of its fields.
    Calibration,
    /// In `limits`, or in the table of one of its fields.
    Limits,
    /// In a table of `change`, which are counted from 0.
    Change { at: u8 },
    /// In `calibration` of a change, or in the table of one of its fields.
    ChangeCalibration { at: u8 },
    /// In `limits` of a change, or in the table of one of its fields.
    ChangeLimits { at: u8 },
}

/// Why a settings file was refused. Of several faults it is the first, with the keys of each table taken in the order of
/// their bytes (this project's profile).
#[derive(Clone, Copy, Debug, PartialEq, Eq)]
pub enum SettingsFault {
    /// The bytes are no TOML document.
    Syntax,
    /// A key that has no meaning where it stands: at the top, in a change, in place of a field's name, or in the table of
    /// a field.
    UnknownKey {
        section: Section,
        /// The field in whose table the key stands, where it stands in one.
        field: Option<FieldId>,
        /// The place of the key in its table, from 0; a place beyond 2^32 - 1 is given as that.
        index: u32,
    },
    /// A value that should be a table and is none, or that should be a whole number of its range and is none. The key is
    /// named as for `UnknownKey`. It is the key `change` where that is no array, or where a member of it is no table.
    BadNumber {
        section: Section,
        field: Option<FieldId>,
        index: u32,
    },
    /// The least value of a field is above its greatest.
    LimitsCrossed(FieldId),
    /// `period` is none of the periods of a console.
    BadPeriod,
    /// `change` has more than 16 members.
    TooManyChanges,
    /// `from` of a change is missing, or is no text `YYYY-MM-DD HH:MM` that names a stamp. It is told after the other
    /// keys of the change.
    BadFrom {
        /// Which change it is, from 0.
        index: u32,
    },
    /// The stamp of a change does not exceed that of the change before.
    ChangeOrder {
        /// Which change it is, from 0.
        index: u32,
    },
    /// In a change the least value of a field is above its greatest.
    CrossedInChange {
        /// Which change it is, from 0.
        at: u8,
        field: FieldId,
    },
    /// Memory was refused, which says nothing of the file.
    OutOfMemory,
}

/// The bytes of a row: those of a slot of the log.
pub const ROW_SIZE: usize = 176;

// Where the parts of a slot stand. Numbers have their low byte first.

// The gate of a batch, which the log opens.
pub const GATE: usize = 0;

pub const KIND: usize = 1;

// The number of a batch's slots, which the log fills in.
pub const BATCH: usize = 2;

pub const DATE: usize = 4;

pub const TIME: usize = 6;

// In minutes.
pub const INTERVAL: usize = 8;

pub const SPARE: usize = 10;

// A bit for each field, the lowest for the first.
pub const PRESENCE: usize = 12;

// Four bytes for each field.
pub const VALUES: usize = 20;

// The fields that limits made missing, a bit for each.
pub const LIMITED: usize = 168;

/// The kind of a slot that holds a row.
pub const ROW: u8 = 1;

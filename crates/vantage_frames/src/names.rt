// The names that lines begin with, or consist of (Davis serial manual, "Commands").

pub const TEST: &[u8] = b"TEST";

pub const KIND: &[u8] = b"WRD\x12\x4D";

pub const LOOP: &[u8] = b"LOOP ";

pub const DUMP_AFTER: &[u8] = b"DMPAFT";

pub const EEPROM_READ: &[u8] = b"EEBRD ";

pub const EEPROM_WRITE: &[u8] = b"EEBWR ";

pub const EEPROM_ALL: &[u8] = b"GETEE";

pub const TIME_GET: &[u8] = b"GETTIME";

pub const TIME_SET: &[u8] = b"SETTIME";

pub const SET_PERIOD: &[u8] = b"SETPER ";

pub const CLEAR_LOG: &[u8] = b"CLRLOG";

/// Acknowledges what came, and asks for the next page. (Davis serial manual, "Download Protocol".)
pub const ACK: u8 = 0x06;

/// Asks for the same page again. (Davis serial manual, "Download Protocol".)
pub const NAK: u8 = 0x15;

/// Ends a dump early. (Davis serial manual, "Download Protocol".)
pub const ESC: u8 = 0x1B;

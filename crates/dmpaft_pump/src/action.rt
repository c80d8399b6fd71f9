use crate::message::LONGEST_MESSAGE;
use crate::pump_end::PumpEnd;
use archive_record::Rec52;
use arrayvec::ArrayVec;

/// What a pump asks for next.
#[derive(Drop)]
pub enum Action<'p> {
    /// Say these bytes as one message. There is one at least.
    Say(ArrayVec<u8, LONGEST_MESSAGE>),
    /// Hear up to so many bytes, 1 to 267, or wait once.
    Listen(u16),
    /// Keep these records of one page, which the pump lends. There is one at least.
    Keep(&'p [Rec52]),
    /// Nothing: the attempt is over.
    Ended(PumpEnd),
}

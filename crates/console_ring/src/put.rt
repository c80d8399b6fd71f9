use station_base::Stamp;

/// What became of a record.
#[derive(Clone, Copy, Debug, PartialEq, Eq)]
pub enum RingPut {
    /// It is the newest record now. In a full ring it overwrote the oldest.
    Done,
    /// It was refused, since its stamp does not exceed that of the newest record, which this is.
    NotRising(Stamp),
}

/// How what was to be stored was taken: a batch of slots by a log, rows by an archive, records by a keeper. A log is an
/// archive's file as slots of 176 bytes, and a keeper takes the batches of an attempt. (This project's own.)
#[derive(Clone, Copy, Debug, PartialEq, Eq)]
pub enum Stored {
    /// It is stored, and a crash leaves it.
    Done,
    /// There is no room for it. Nothing was changed.
    Full,
    /// An earlier call on the same object answered `DiskFault`. Nothing was changed.
    Stale,
    /// A call of the disk failed. Nothing more is stored from now on.
    DiskFault,
}

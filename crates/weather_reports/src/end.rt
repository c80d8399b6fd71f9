/// How a report ended.
#[derive(Clone, Copy, Debug, PartialEq, Eq)]
pub enum ReportEnd {
    /// All its lines are written.
    Done,
    /// A call of the disk failed. The lines before it are written, each whole.
    DiskFault,
    /// A write failed. A front of the lines' bytes is written.
    WriteFault,
}

/// Why a run was cut off.
#[derive(Clone, Copy, Debug, PartialEq, Eq)]
pub enum Cut {
    /// A write failed. A front of what was to be written is.
    WriteFault,
    /// The run found no memory.
    OutOfMemory,
}

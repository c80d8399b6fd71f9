ghost use Rattle.std.specs.Prelude.{◌≡◌, OnOk, OnErr};

use crate::Disked;

/// A call of a disk failed.
#[derive(Clone, Copy, Debug, PartialEq, Eq)]
pub struct DiskFault;

impl Disked {
    /// The same answer, to be handed on by `?`.
    pub fn ok(self) -> Result<(), DiskFault>
        ensures done { OnOk result (self ≡ Disked.Done) }
        ensures failed { OnErr result (self ≡ Disked.Failed) }
    {
        match self {
            Disked::Done => Ok(()),
            Disked::Failed => Err(DiskFault),
        }
    }
}

ghost use Rattle.std.specs.Prelude.{◌≡◌};
ghost use Rattle.gated_log.specs.Log.{begins_first, has_head};
ghost use Rattle.gated_log.specs.Version.{version_in};

/// Which form of slots an archive has, by the last digit of its head.
#[derive(Clone, Copy, Debug, PartialEq, Eq)]
pub enum Version {
    /// The head is `DVARCH01`. Such an archive is read, and written no more.
    First,
    /// The head is `DVARCH02`, as that of each new archive.
    Second,
}

// What an archive of the first version begins with.
const FIRST_MARK: &[u8; 8] = b"DVARCH01";

// What a new archive begins with.
pub(crate) const MARK: &[u8; 8] = b"DVARCH02";

// Whether these are the first bytes of an archive of the first version.
fn is_first(head: &[u8; 8]) -> bool
    ensures { result ≡ begins_first head.now }
{
    *head == *FIRST_MARK
}

// Whether these are the first bytes of an archive.
pub(crate) fn is_mark(head: &[u8; 8]) -> bool
    ensures { result ≡ has_head head.now }
{
    let first = is_first(head);
    let second = *head == *MARK;
    first || second
}

// The version of an archive that begins so.
pub(crate) fn version_in(head: &[u8; 8]) -> Version
    ensures { result ≡ version_in head.now }
{
    if is_first(head) {
        Version::First
    } else {
        Version::Second
    }
}

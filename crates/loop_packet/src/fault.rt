/// Why bytes are no LOOP packet, the first of these that holds. Their order is this project's profile.
#[derive(Clone, Copy, Debug, PartialEq, Eq)]
pub enum LoopFault {
    /// The first three bytes are not `LOO`.
    BadMark,
    /// The byte at 4 names another type of packet, which is this one.
    BadType(u8),
    /// LF and CR do not stand before the check.
    BadEnd,
    /// The check of all the bytes is not 0: the line changed or lost some.
    BadCheck,
}

/// Why a line is that of no row. A line has the first of its faults from the left, and its number is the kind of fault that
/// is printed (this project's own).
#[derive(Clone, Copy, Debug, PartialEq, Eq)]
pub enum RowFault {
    /// It does not begin with `row `.
    NoRow = 1,
    /// No stamp stands behind that.
    NoStamp = 2,
    /// No blank and period in minutes stand behind the stamp.
    NoPeriod = 3,
    /// What stands behind the items before does not begin with ` NAME=` for the NAME of a field.
    NoField = 4,
    /// A field stands behind one of a higher number, or twice.
    NotRising = 5,
    /// A value is neither `limit` nor a number of at most ten digits as it is printed: with no zero before it, no `-0`, and
    /// no sign but `-`.
    NoNumber = 6,
    /// A value is beyond 2,000,000 either way.
    TooFar = 7,
}

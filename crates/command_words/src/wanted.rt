use station_base::DayNumber;

/// Which lines of an archive are asked for.
#[derive(Clone, Copy, Debug, PartialEq, Eq)]
pub enum ReportKind {
    /// `rows`: the line of each row.
    Rows,
    /// `days`: what the values of each field come to, for each day that has a row.
    Days,
    /// `months`: the same, for each month.
    Months,
}

/// A report that is asked for.
#[derive(Clone, Copy, Debug)]
pub struct Wanted {
    /// Its lines.
    pub kind: ReportKind,
    /// The first day that it is over.
    pub first: DayNumber,
    /// The last one.
    pub last: DayNumber,
}

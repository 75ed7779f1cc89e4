/// When a line was written.
#[derive(Clone, Copy)]
pub enum Moment {
    /// By a clock that doesn't give the year: the seconds from 1970-01-01 00:00 to that time of the
    /// year 2000, which has a 29 February.
    OfYear(u64),
    /// The seconds since 1970-01-01 00:00 UTC.
    Universal(u64),
}

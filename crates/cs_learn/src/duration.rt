//! How long a run took.
use cs_retrace::Moment;

/// 1 February, 1 March and 1 December 2000, 00:00, in seconds since 1970. A moment without a year
/// is in 2000.
const FEBRUARY: u64 = 949_363_200;

const MARCH: u64 = 951_868_800;

const DECEMBER: u64 = 975_628_800;

/// The seconds of 366 days.
const LEAP_YEAR: u64 = 31_622_400;

/// The seconds from the beginning of a run to its end; none if the clock went back. Without a year,
/// January follows December, and a run from February into March has no known length, as February
/// may have 29 days.
pub(crate) fn passed(begin: Moment, end: Moment) -> Option<u64> {
    match (begin, end) {
        (Moment::OfYear(begin), Moment::OfYear(end)) => {
            if begin <= end && (MARCH <= begin || end < MARCH) {
                return Some(end - begin);
            }
            if DECEMBER <= begin && end < FEBRUARY {
                return Some((end + LEAP_YEAR).saturating_sub(begin));
            }
            None
        }
        (Moment::Universal(begin), Moment::Universal(end)) => end.checked_sub(begin),
        _ => None,
    }
}

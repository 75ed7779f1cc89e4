use arrayvec::ArrayVec;
use cs_civil::{DayKind, Minute};
use cs_windows::Window;

/// Why a certificate is refused: the first rule that fails, and its first place. A minute `at` is
/// on the first day that ends such a stretch, of those that begin on 1970-01-02 or later; for a
/// backlog step it is on the day before.
#[derive(Drop)]
pub enum CheckFault {
    /// The class of this kind of day doesn't have the due minutes of the kind.
    ClassNotDue(DayKind),
    /// The certificate has no stretch for the classes of these successive kinds of days.
    MissingPair(ArrayVec<DayKind, 4>),
    /// The bound of the group at the next minute is below the bound plus the arrivals at this one,
    /// less a minute of runs.
    BacklogRises {
        group: usize,
        at: Minute,
    },
    /// This job waits for a lock and has no reach, or one that ends before its group's bound is 0.
    ReachTooShort {
        job: usize,
    },
    /// The leaf of this minute doesn't list the window.
    WindowMissing {
        window: Window,
        at: Minute,
    },
    /// These two windows of one exclusive group hold this minute, and may not.
    Collision {
        at: Minute,
        one: Window,
        other: Window,
    },
    /// The runs that may run at this minute weigh more than the capacity.
    OverCapacity {
        at: Minute,
        load: u128,
    },
    /// The skip job that is due at this minute may find its lock held by a run of the other window.
    SkipBlocked {
        at: Minute,
        skip: Window,
        other: Window,
    },
}

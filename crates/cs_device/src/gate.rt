//! The points that a worker passes around each run.
use cs_history::Run;

/// A point of a run.
#[derive(Clone, Copy, PartialEq, Eq)]
pub enum Point {
    /// Its command has not started.
    Before,
    /// Its command has ended, or couldn't be started.
    After,
}

/// The points before and after each run, passed outside the lock: tests hold runs there.
pub trait Gate {
    /// Returns when the run may go on.
    fn pass(&self, run: Run, point: Point);
}

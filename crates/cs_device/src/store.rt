ghost use Rattle.std.specs.Prelude.{◌≡◌, ℕ, ◌<◌, ◌≤◌, false};

use cs_civil::Day;

/// A store's answer for a job's stamp.
#[derive(Clone, Copy, PartialEq, Eq)]
pub enum Stamp {
    /// The job ran on this day.
    On(Day),
    /// There is none.
    Absent,
    /// It can't be read.
    Failed,
}

/// Keeps the stamps of anacron jobs, by their identifiers (anacron(8)).
pub trait StampStore {
    ghost use Rattle.std.specs.Prelude.{List, Bool};
    ghost use Rattle.cs_device.specs.declared.store.Stamp.{Stamp};
    ghost use Rattle.cs_device.specs.declared.store.Stamp.TheVariants.{Failed};

    /// What reading an identifier's stamp does to the store, by its answer.
    ghost reads: { Self → List ℕ → Stamp → Self → Type 0 };

    /// What writing a day for an identifier does to it, by whether it is written.
    ghost writes: { Self → List ℕ → ℕ → Bool → Self → Type 0 };

    /// How often a stamp couldn't be read or written.
    ghost failures: { Self → ℕ };

    /// Reads the stamp of a job.
    fn read(&mut self, identifier: &[u8]) -> Stamp
        ensures reads { reads self.old identifier.now result self.new }
        ensures failures { failures self.old ≤ failures self.new }
        ensures failed { result ≡ Failed → failures self.old < failures self.new };

    /// Replaces the stamp of a job, and returns whether it is written.
    fn write(&mut self, identifier: &[u8], day: Day) -> bool
        ensures writes { writes self.old identifier.now day result self.new }
        ensures failures { failures self.old ≤ failures self.new }
        ensures failed { result ≡ false → failures self.old < failures self.new };
}

ghost use Rattle.std.specs.Prelude.{◌≡◌, ℕ, ◌+◌, ◌<◌, ◌≤◌, Option, Some, false, true};

use cs_civil::Minute;

/// A clock's answer.
#[derive(Clone, Copy, PartialEq, Eq)]
pub enum Tick {
    /// It is this minute.
    At(Minute),
    /// The daemon has to end.
    Stop,
    /// The clock can't be read.
    Failed,
}

/// A clock in whole minutes; contracts see its answers so far.
pub trait Clock {
    ghost use Rattle.cs_device.specs.declared.clock.Tick.{Tick};
    ghost use Rattle.cs_device.specs.declared.clock.Tick.TheVariants.{Failed, Stop};
    ghost use Rattle.cs_device.specs.Rise.{risen_by, top_by};

    /// The last answer, if there is one.
    ghost last: { Self → Option Tick };

    /// How often it couldn't be read.
    ghost failures: { Self → ℕ };

    /// The greatest minute so far, 0 before the first.
    ghost top: { Self → ℕ };

    /// How many answers were a minute later than all before.
    ghost risen: { Self → ℕ };

    /// Returns the next answer; `now` is the last minute that it returned. A clock answers the
    /// first call at once and waits in each later one, so a loop over it isn't busy.
    fn tick(&mut self, now: Option<Minute>) -> Tick
        ensures last { last self.new ≡ Some result }
        ensures failures { failures self.old ≤ failures self.new }
        ensures failed { result ≡ Failed → failures self.old < failures self.new }
        ensures top { top self.new ≡ top_by (top self.old) result }
        ensures risen { risen self.new ≡ risen self.old + risen_by (top self.old) result };

    /// Whether a daemon in which nothing is pending, waits or runs is to end.
    fn stops_at_rest(&mut self) -> bool
        ensures stopped { result ≡ true → last self.new ≡ Some Stop }
        ensures same { result ≡ false → last self.new ≡ last self.old }
        ensures failures { failures self.new ≡ failures self.old }
        ensures top { top self.new ≡ top self.old }
        ensures risen { risen self.new ≡ risen self.old };

    /// Waits as a later [`tick`](Clock::tick) does, and returns the minute then, if the clock can
    /// be read. That is no answer.
    fn look_on(&mut self) -> Option<Minute>
        ensures last { last self.new ≡ last self.old }
        ensures failures { failures self.new ≡ failures self.old }
        ensures top { top self.new ≡ top self.old }
        ensures risen { risen self.new ≡ risen self.old };
}

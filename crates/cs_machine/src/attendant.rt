ghost use Rattle.std.specs.Prelude.{⊤, IsTrue};

use cs_civil::Minute;

/// The machine's clock shows a minute before the latest one.
#[derive(Clone, Copy)]
pub struct ClockBack {
    /// The minute that the machine's clock shows.
    pub shown: Minute,
    /// The latest minute that it showed before.
    pub latest: Minute,
    /// Whether the daemon's clock shows the latest minute until the machine's has passed it.
    pub is_waited_for: bool,
}

/// What a clock asks and reports while it waits.
pub trait Attendant {
    ghost use Rattle.cs_machine.specs.declared.attendant.ClockBack.{ClockBack};

    /// What [`tell_back`](Attendant::tell_back) does to it, by default anything. A clause that
    /// relates two states by it says that it was called once.
    ghost tells: { Self → ClockBack → Self → Type 0 } = { λ before back after. ⊤ };

    /// What [`wait_to_begin`](Attendant::wait_to_begin) does to it if nothing is left to wait for,
    /// by default anything.
    ghost begins: { Self → Self → Type 0 } = { λ before after. ⊤ };

    /// Waits for all that has to end before the clock's first minute. False if the daemon is asked
    /// to end first.
    fn wait_to_begin(&mut self) -> bool
        ensures { IsTrue result → begins self.old self.new };

    /// Whether the daemon is asked to end.
    fn is_stop_asked(&mut self) -> bool;

    /// Whether the daemon is asked to end once nothing is pending, waits or runs.
    fn is_rest_awaited(&self) -> bool;

    /// Called each second, also while the daemon only waits for its last runs.
    fn attend(&mut self);

    /// Takes note that the machine's clock was put back; called once each time.
    fn tell_back(&mut self, back: ClockBack)
        ensures { tells self.old back self.new };

    /// Takes note that the clock stops at its limit.
    fn tell_over(&mut self);
}

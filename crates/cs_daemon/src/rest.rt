//! Whether nothing is left to do.
ghost use Rattle.std.specs.Prelude.{◌≡◌, ◌↔◌, IsTrue, Some, false, true};
ghost use Rattle.cs_daemon.specs.Rest.{IsAtRest};
ghost use Rattle.cs_device.specs.declared.clock.Tick.TheVariants.{Stop};

use crate::plan_ledger::PlanLedger;
use crate::shared::Shared;
use cs_core::Core;
use cs_device::Clock;
use std::io;
use std::sync::Wait;
use std::sync::ledger::Ledger;

pub(crate) fn is_at_rest(core: &Core) -> bool
    ensures { IsTrue result ↔ IsAtRest core.now.state }
{
    core.pending().is_empty() && core.waiting().is_empty() && core.running().is_empty()
}

impl<'w, J: PlanLedger, T: Ledger, R: Wait, G, O: io::Write> Shared<'w, J, T, R, G, O> {
    pub(crate) fn leaves_off<C: Clock>(&self, clock: &mut C) -> bool
        ensures stopped { result ≡ true → C.last clock.new ≡ Some Stop }
        ensures same { result ≡ false → C.last clock.new ≡ C.last clock.old }
        ensures failures { C.failures clock.new ≡ C.failures clock.old }
        ensures top { C.top clock.new ≡ C.top clock.old }
        ensures risen { C.risen clock.new ≡ C.risen clock.old }
    {
        let is_at_rest = self.dispatch.lock(self.rt).is_at_rest();
        is_at_rest && clock.stops_at_rest()
    }
}

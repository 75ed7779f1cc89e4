//! Reports the runs that become late once the daemon has gone down.
ghost use Rattle.std.specs.Prelude.{◌≡◌};

use crate::plan_ledger::PlanLedger;
use crate::shared::Shared;
use cs_civil::Minute;
use cs_device::Clock;
use std::io;
use std::sync::Wait;
use std::sync::ledger::Ledger;

impl<'w, J: PlanLedger, T: Ledger, R: Wait, G, O: io::Write> Shared<'w, J, T, R, G, O> {
    /// Returns once each run has ended.
    pub(crate) fn see_off<C: Clock>(&self, clock: &mut C)
        ensures last { C.last clock.new ≡ C.last clock.old }
        ensures failures { C.failures clock.new ≡ C.failures clock.old }
        ensures top { C.top clock.new ≡ C.top clock.old }
        ensures risen { C.risen clock.new ≡ C.risen clock.old }
    {
        let mut last = self.dispatch.lock(self.rt).now();
        for _ in self.rt.forever() {
            if self.dispatch.lock(self.rt).has_ended() {
                return;
            }
            match clock.look_on() {
                Some(minute) if minute > last => {
                    self.tell_late(last, minute);
                    last = minute;
                }
                _ => {}
            }
        }
    }

    fn tell_late(&self, last: Minute, minute: Minute) {
        let notices = self.dispatch.lock(self.rt).late(self.alloc, last, minute);
        let mut log = self.log.lock(self.rt);
        log.write_all(notices.lines());
        log.lose(notices.lost());
    }
}

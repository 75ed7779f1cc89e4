//! The ledger of a daemon's keep, with the plan that the daemon runs.
ghost use Rattle.cs_daemon.specs.NoPlan.{no_plan};

use std::marker::Brand;
use std::sync::ledger::Ledger;

pub(crate) trait PlanLedger: Ledger {
    ghost use Rattle.cs_plan.specs.Plan.{Declared};

    ghost plan: { Declared };
}

impl PlanLedger for Brand {
    ghost plan = { no_plan };
}

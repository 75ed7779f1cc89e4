ghost use denote.Param.Send.{IsSync};
ghost use Rattle.std.specs.Prelude.{◌≡◌, ◌<◌, IfOk, length, map, ⊤};
ghost use Rattle.cs_claims.specs.Certificate.{content};
ghost use Rattle.cs_classes.specs.Likeness.{AreLikenesses, ArePlain, AreTimes, IsRow};
ghost use Rattle.cs_classes.specs.WorkedOut.{classed_kind};
ghost use Rattle.cs_civil.specs.Order.{all_kinds};
ghost use Rattle.cs_classes.specs.StandsFor.{worked_classes, worked_of};
ghost use Rattle.cs_classes.specs.Said.{said};
ghost use Rattle.cs_plan.specs.Plan.{Declared};

use crate::claim::Claim;
use crate::likeness::{Likeness, row_of, times_of_jobs};
use crate::worked::plain_lists;
use crate::working_out::{class_of_number, classed_kinds};
use cs_civil::Sequence;
use cs_claims::{Certificate, Class};
use cs_plan::Plan;
use rayon::prelude::*;
use std::alloc::{AllocError, Global};
use std::thread::Threads;

/// The fewest rows that are worth a thread.
const LEAST_ROWS: usize = 8;

/// Goes through the classes of a certificate, in one thread or in several.
pub trait Workers {
    // Holds where they may work.
    ghost can_work: { Self → Type 0 };

    /// What each class is to each cron job, a row for each class. The only error is out of memory.
    fn likenesses(
        &self,
        alloc: Global,
        plan: &Plan,
        claim: &Claim<'_>,
    ) -> Result<Vec<Sequence<Likeness>>, AllocError>
        requires { can_work self.now }
        ensures { IfOk result (λ rows. AreLikenesses plan.now (said claim.now) rows.items) };

    /// What each class stands for on days of the first kind that has it, by number. The only error
    /// is out of memory.
    fn classes_worked_out(
        &self,
        alloc: Global,
        plan: &Plan,
        certificate: &Certificate,
    ) -> Result<Vec<Class>, AllocError>
        requires { can_work self.now }
        ensures { IfOk result (λ worked.
            worked.items ≡ worked_classes plan.now (content certificate.now)) };
}

/// One thread.
#[derive(Drop)]
pub struct OneThread;

impl Workers for OneThread {
    ghost can_work = { λ _. ⊤ };

    fn likenesses(
        &self,
        alloc: Global,
        plan: &Plan,
        claim: &Claim<'_>,
    ) -> Result<Vec<Sequence<Likeness>>, AllocError> {
        let times = times_of_jobs(alloc, plan)?;
        let mut rows = Vec::new(alloc);
        for class in claim.classes() {
            rows.push(row_of(alloc, class, times.as_slice())?)?;
        }
        Ok(rows)
    }

    fn classes_worked_out(
        &self,
        alloc: Global,
        plan: &Plan,
        certificate: &Certificate,
    ) -> Result<Vec<Class>, AllocError> {
        let kinds = classed_kinds(alloc, certificate)?;
        let kinds = kinds.as_slice();
        let plain = plain_lists(alloc, plan)?;
        let plain = plain.as_slice();
        let mut worked = Vec::new(alloc);
        for number in 0..certificate.classes().len() {
            worked.push(class_of_number(alloc, plan, certificate, kinds, plain, number)?)?;
        }
        Ok(worked)
    }
}

/// As many threads as the machine has processors.
#[derive(Drop)]
pub struct SeveralThreads<'a, R>(pub &'a R);

impl<R: Threads + Sync> Workers for SeveralThreads<'_, R> {
    ghost can_work = { λ _. IsSync R.row };

    fn likenesses(
        &self,
        alloc: Global,
        plan: &Plan,
        claim: &Claim<'_>,
    ) -> Result<Vec<Sequence<Likeness>>, AllocError> {
        let times = times_of_jobs(alloc, plan)?;
        let times = times.as_slice();
        claim
            .classes()
            .par_iter()
            .with_min_len(LEAST_ROWS)
            .map(
                |class: &Class| -> Result<Sequence<Likeness>, AllocError>
                    ensures { IfOk result (λ row. (d : Declared) → AreTimes d times.entry.now
                        → IsRow d class.now row) }
                { row_of(alloc, class, times) },
            )
            .collect::<Result<Vec<Sequence<Likeness>>, AllocError>>(self.0, alloc)?
    }

    fn classes_worked_out(
        &self,
        alloc: Global,
        plan: &Plan,
        certificate: &Certificate,
    ) -> Result<Vec<Class>, AllocError> {
        let kinds = classed_kinds(alloc, certificate)?;
        let kinds = kinds.as_slice();
        let plain = plain_lists(alloc, plan)?;
        let plain = plain.as_slice();
        (0..certificate.classes().len())
            .into_par_iter()
            .with_min_len(1)
            .map(
                |number: usize| -> Result<Class, AllocError>
                    requires { (number < length (content certificate.now).classes)
                        × ArePlain plan.now plain.now
                        × (kinds.now ≡ map (classed_kind (content certificate.now)) all_kinds) }
                    ensures { IfOk result (λ worked.
                        worked ≡ worked_of plan.entry.now (content certificate.entry.now) number) }
                { class_of_number(alloc, plan, certificate, kinds, plain, number) },
            )
            .collect::<Result<Vec<Class>, AllocError>>(self.0, alloc)?
    }
}

ghost use Rattle.std.specs.Prelude.{◌<◌, All, IfOk, IsTrue, length};
ghost use Rattle.cs_classes.specs.Said.{said};
ghost use Rattle.cs_classes.specs.Used.{IsInUse};
ghost use Rattle.cs_check.specs.ClassDays.{AreClassDays, IsBasis, IsClassDay};
ghost use Rattle.cs_check.specs.Stretches.{AreGood, IsCase, IsGoodIn};

use crate::case::Case;
use crate::class_day::{ClassDay, class_day};
use crate::due::Basis;
use crate::good::is_good;
use cs_classes::{OneThread, SeveralThreads, UsedStretch, Workers};
use rayon::prelude::*;
use std::alloc::{AllocError, Global};
use std::thread::Threads;

/// Goes through classes and stretches, in one thread or in several.
pub(crate) trait CheckWorkers: Workers {
    /// The day of each class, by the number of the class.
    fn class_days(&self, alloc: Global, basis: &Basis<'_>) -> Result<Vec<ClassDay>, AllocError>
        requires ready { Self.can_work self.now }
        requires basis { IsBasis basis.now }
        ensures { IfOk result (λ days.
            AreClassDays basis.now.plan.now (said basis.now.claim.now) days.items) };

    /// Whether each stretch in use is good. If memory runs out, the answer is false or that error.
    fn are_good(
        &self,
        alloc: Global,
        case: &Case<'_>,
        stretches: &[UsedStretch<'_>],
    ) -> Result<bool, AllocError>
        requires ready { Self.can_work self.now }
        requires case { IsCase case.now }
        requires in_use { All (IsInUse (said case.now.claim.now) case.now.days) stretches.now }
        ensures { IfOk result (λ good. IsTrue good → AreGood case.now stretches.now) };
}

impl CheckWorkers for OneThread {
    fn class_days(&self, alloc: Global, basis: &Basis<'_>) -> Result<Vec<ClassDay>, AllocError> {
        let mut days = Vec::new(alloc);
        for number in 0..basis.claim.classes().len() {
            days.push(class_day(alloc, basis, number)?)?;
        }
        Ok(days)
    }

    fn are_good(
        &self,
        alloc: Global,
        case: &Case<'_>,
        stretches: &[UsedStretch<'_>],
    ) -> Result<bool, AllocError> {
        for used in stretches {
            if !is_good(alloc, case, used)? {
                return Ok(false);
            }
        }
        Ok(true)
    }
}

impl<R: Threads + Sync> CheckWorkers for SeveralThreads<'_, R> {
    fn class_days(&self, alloc: Global, basis: &Basis<'_>) -> Result<Vec<ClassDay>, AllocError> {
        let classes = basis.claim.classes();
        (0..classes.len())
            .into_par_iter()
            .with_min_len(1)
            .map(
                |number: usize| -> Result<ClassDay, AllocError>
                    requires { (number < length (said basis.now.claim.now).classes)
                        × IsBasis basis.now }
                    ensures { IfOk result (IsClassDay basis.entry.now.plan.now
                        (said basis.entry.now.claim.now) number) }
                { class_day(alloc, basis, number) },
            )
            .collect::<Result<Vec<ClassDay>, AllocError>>(self.0, alloc)?
    }

    // A stretch isn't good if memory runs out for it.
    fn are_good(
        &self,
        alloc: Global,
        case: &Case<'_>,
        stretches: &[UsedStretch<'_>],
    ) -> Result<bool, AllocError> {
        let good = stretches.par_iter().with_min_len(1).all(
            self.0,
            |used: &UsedStretch<'_>| -> bool
                requires { IsCase case.now
                    × IsInUse (said case.now.claim.now) case.now.days used.now }
                ensures { IsTrue result → IsGoodIn case.entry.now used.now }
            { is_good(alloc, case, used).unwrap_or(false) },
        );
        if good {
            return Ok(true);
        }
        Ok(false)
    }
}

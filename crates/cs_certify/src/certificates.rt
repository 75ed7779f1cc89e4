ghost use Rattle.std.specs.Prelude.{◌≡◌, IfOk};
ghost use Rattle.cs_claims.specs.Certificate.{content};

use crate::class::classes_of;
use crate::day_trees::day_tree;
use crate::minute_trees::minute_tree;
use crate::nodes::Classing;
use cs_civil::{MINUTES_OF_DAY, Sequence};
use cs_claims::{CertError, CertFault, Certificate, Class, Stretch};
use cs_profile::Facts;
use cs_windows::{JobReach, Window};
use std::alloc::{AllocError, Global};

/// Returns the stretch of successive days of these classes, eldest first, with the windows that
/// hold minutes of the last of them. Its tree lists them in this order. The only error is out of
/// memory.
pub fn stretch(alloc: Global, of: &[u16], windows: &[Window]) -> Result<Stretch, AllocError> {
    let mut classes = Vec::with_capacity(alloc, of.len())?;
    for class in of {
        classes.push(u32::from(*class))?;
    }
    Ok(Stretch {
        of: Sequence::from_vec(classes),
        tree: minute_tree(alloc, windows)?,
    })
}

/// Version 1 can't have stretches of more than two days or runs that go on for more than a day.
fn version(facts: &Facts, stretches: &[Stretch], reaches: &[JobReach]) -> u8 {
    let mut days = 0;
    for stretch in stretches {
        days = stretch.of.len().max(days);
    }
    let mut minutes = 0;
    for listed in reaches {
        minutes = listed.reach.max(minutes);
    }
    for task in facts.tasks() {
        minutes = task.max.max(minutes);
    }
    if days <= 2 && minutes <= MINUTES_OF_DAY {
        1
    } else {
        2
    }
}

pub(crate) fn certified(
    alloc: Global,
    version: u8,
    classes: Result<Sequence<Class>, CertError>,
    classing: &Classing,
    stretches: Sequence<Stretch>,
    reaches: &[JobReach],
) -> Result<Result<Certificate, CertFault>, AllocError>
    ensures { IfOk result (λ made.
        IfOk made (λ certificate. (content certificate).version ≡ version)) }
{
    let classes = match classes {
        Ok(classes) => classes,
        Err(CertError::Fault(fault)) => return Ok(Err(fault)),
        Err(CertError::OutOfMemory) => return Err(AllocError),
    };
    let kinds = day_tree(alloc, &classing.class_of)?;
    let reach = Sequence::from_slice(alloc, reaches)?;
    Ok(Certificate::new(version, classes, kinds, stretches, reach))
}

/// Returns the certificate of these classes, of these stretches of their days, and of these reaches
/// of the jobs that wait. Stretches rise by length, then by classes, and reaches by job.
///
/// The inner error is what no certificate may be, as [`CertFault`] says; the outer one is out of
/// memory.
pub fn certificate(
    alloc: Global,
    facts: &Facts,
    classing: &Classing,
    stretches: Sequence<Stretch>,
    reaches: &[JobReach],
) -> Result<Result<Certificate, CertFault>, AllocError> {
    let version = version(facts, stretches.as_slice(), reaches);
    let classes = classes_of(alloc, facts, classing);
    certified(alloc, version, classes, classing, stretches, reaches)
}

ghost use Rattle.std.specs.Prelude.{◌≡◌, IfOk};
ghost use Rattle.cs_claims.specs.Certificate.{content};

use crate::certificates::certified;
use crate::class::group_backlog;
use crate::lock::Lock;
use crate::nodes::Classing;
use crate::numbers::minutes_at;
use cs_civil::Sequence;
use cs_claims::{CertError, CertFault, Certificate, Class, GroupBacklog};
use cs_wait::Piece;
use cs_windows::JobReach;
use std::alloc::{AllocError, Global};

fn carries(
    alloc: Global,
    locks: &[Lock],
    kind: usize,
) -> Result<Sequence<GroupBacklog>, CertError> {
    let mut carries = Sequence::new(alloc);
    for lock in locks {
        let value = minutes_at(&lock.carries, kind);
        if value > 0 {
            let piece = Piece { minute: 0, value };
            carries.push(group_backlog(alloc, lock.group, &[piece])?)?;
        }
    }
    Ok(carries)
}

fn classes_of(alloc: Global, classing: &Classing) -> Result<Sequence<Class>, CertError> {
    let mut listed = Sequence::new(alloc);
    for kind in classing.firsts.as_slice() {
        listed.push(Class {
            due: Sequence::new(alloc),
            backlog: carries(alloc, &classing.locks, *kind)?,
        })?;
    }
    Ok(listed)
}

/// Returns the certificate of version 3 of these classes, and of these reaches of the jobs that
/// wait, which rise by job. It says only which kinds of days are alike, and what is left over when
/// a day of each class begins.
///
/// The inner error is what no certificate may be, as [`CertFault`] says; the outer one is out of
/// memory.
pub fn compact_certificate(
    alloc: Global,
    classing: &Classing,
    reaches: &[JobReach],
) -> Result<Result<Certificate, CertFault>, AllocError>
    ensures { IfOk result (λ made. IfOk made (λ certificate. (content certificate).version ≡ 3)) }
{
    let classes = classes_of(alloc, classing);
    certified(alloc, 3, classes, classing, Sequence::new(alloc), reaches)
}

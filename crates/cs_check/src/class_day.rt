ghost use Rattle.std.specs.Prelude.{◌≡◌, ◌<◌, IfOk, length};
ghost use Rattle.cs_classes.specs.Said.{said};
ghost use Rattle.cs_check.specs.ClassDays.{IsBasis, IsClassDay};
ghost use Rattle.cs_classes.specs.Claim.{class_at};

use crate::due::Basis;
use crate::reaches::all_settle;
use cs_claims::Class;
use cs_classes::{Claim, GroupDay, group_days};
use std::alloc::{AllocError, Global};

/// What the days of a class have, worked out once for all stretches.
#[derive(Drop)]
pub(crate) struct ClassDay {
    /// The lock of each group, by the group's number.
    pub(crate) groups: Vec<GroupDay>,
    /// Whether each job that waits and has a reach has had its lock on the day itself.
    pub(crate) settles: bool,
}

fn class_of_number<'a>(claim: &'a Claim<'a>, number: usize) -> &'a Class
    requires { number < length (said claim.now).classes }
    ensures { result.now ≡ class_at (said claim.now).classes number }
{
    &claim.classes()[number]
}

pub(crate) fn class_day(
    alloc: Global,
    basis: &Basis<'_>,
    number: usize,
) -> Result<ClassDay, AllocError>
    requires basis { IsBasis basis.now }
    requires there { number < length (said basis.now.claim.now).classes }
    ensures { IfOk result (IsClassDay basis.now.plan.now (said basis.now.claim.now) number) }
{
    let class = class_of_number(basis.claim, number);
    Ok(ClassDay {
        groups: group_days(alloc, basis.plan, class)?,
        settles: all_settle(basis, class),
    })
}

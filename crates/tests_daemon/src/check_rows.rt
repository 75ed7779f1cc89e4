//! Tests of what the checker by one thread refuses. The program checks by several threads, and the
//! cases of `check` show what that accepts and refuses; the other rows use plans that this one
//! accepts.

use crate::plans::{TIGHT, answer};
use cs_check::{CheckError, Checked};
use cs_theorem::CheckFault;

/// Whether two runs meet where one may run: at 1970-01-03 01:00, on the first day that is checked.
fn is_over_at_one(answer: &Result<Checked, CheckError>) -> bool {
    match answer {
        Err(CheckError::Fault(CheckFault::OverCapacity { at, load })) => {
            (at.number(), *load) == (2_940, 2)
        }
        _ => false,
    }
}

#[test]
fn over_the_capacity(rt: HostRuntime) {
    let answer = answer(&rt, rt.alloc(), &TIGHT);
    assert!(rt; is_over_at_one(&answer));
    drop(answer);
}

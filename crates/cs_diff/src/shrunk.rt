//! Room that shrank.
ghost use Rattle.cs_judge.specs.Called.{IsCalledSafe};

use crate::binding::Binding;
use crate::page::Page;
use crate::side::Side;
use cs_advise::{Room, each_room};
use std::alloc::AllocError;
use std::thread::Threads;

fn push_room(
    page: &mut Page,
    new: Side<'_>,
    binding: &Binding,
    before: &[Room],
    room: Room,
) -> Result<(), AllocError> {
    let Some(was) = binding.was(room.job) else {
        return Ok(());
    };
    match before.get(usize::from(was)) {
        Some(other) if room.most < other.most => {
            page.begin()?;
            page.job(new, room.job)?;
            page.words(": safe up to ")?;
            page.number(u64::from(room.most))?;
            page.words(", was ")?;
            page.number(u64::from(other.most))?;
            page.end()
        }
        _ => Ok(()),
    }
}

/// Adds a line for each job of two safe plans that may take less long than before.
pub(crate) fn push_shrunk<R: Threads + Sync>(
    rt: &R,
    page: &mut Page,
    old: Side<'_>,
    new: Side<'_>,
    binding: &Binding,
) -> Result<(), AllocError>
    requires { IsCalledSafe old.plan.now × IsCalledSafe new.plan.now }
{
    let before = each_room(rt, page.alloc, old.plan)?;
    let after = each_room(rt, page.alloc, new.plan)?;
    for room in after.as_slice() {
        push_room(page, new, binding, before.as_slice(), *room)?;
    }
    Ok(())
}

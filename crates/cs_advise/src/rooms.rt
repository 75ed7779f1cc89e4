//! The room of each job of a plan.
ghost use Rattle.std.specs.Prelude.{◌≡◌, ◌<◌, ◌≤◌, All, IfOk, length, map};
ghost use Rattle.std.specs.List.{range_with_len};
ghost use Rattle.cs_judge.specs.Called.{IsCalledSafe};
ghost use Rattle.cs_advise.specs.Answer.{TellsRooms};
ghost use Rattle.cs_advise.specs.Room.{AreRooms, IsRoom, IsRoomLine};

use crate::label::push_label;
use crate::room::{Room, room_of};
use cs_civil::push_number;
use cs_plan::{MAX_MINUTES, Plan};
use rayon::prelude::*;
use std::alloc::{AllocError, Global};
use std::thread::Threads;

/// The room of each job of a safe plan, in the order of jobs, found by several threads. The only
/// error is out of memory.
pub fn each_room<R: Threads + Sync>(
    rt: &R,
    alloc: Global,
    plan: &Plan,
) -> Result<Vec<Room>, AllocError>
    requires { IsCalledSafe plan.now }
    ensures jobs { IfOk result
        (λ rooms. map (λ room. room.job) rooms.items ≡ range_with_len 0 (length plan.now.jobs)) }
    ensures each { IfOk result (λ rooms. All (IsRoom plan.now) rooms.items) }
{
    (0..plan.jobs().len())
        .into_par_iter()
        .with_min_len(1)
        .map(
            |job: usize| -> Result<Room, AllocError>
                requires { (job < length plan.now.jobs) × (length plan.now.jobs ≤ 320)
                    × IsCalledSafe plan.now }
                ensures { IfOk result
                    (λ room. (room.job ≡ job) × IsRoom plan.entry.now room) }
            { room_of(rt, alloc, plan, job as u16) },
        )
        .collect::<Result<Vec<Room>, AllocError>>(rt, alloc)?
}

fn rooms_of<R: Threads + Sync>(rt: &R, alloc: Global, plan: &Plan) -> Result<Vec<Room>, AllocError>
    requires { IsCalledSafe plan.now }
    ensures { IfOk result (λ rooms. AreRooms plan.now rooms.items) }
{
    let mut rooms = each_room(rt, alloc, plan)?;
    rooms.sort_by_key(|room| room.most.saturating_sub(room.max))?;
    Ok(rooms)
}

/// The end of a line: ` (the most)` where that is so, and `, gap GAP` with `meet` where windows
/// overlap and `-` where there is none.
fn end_text(alloc: Global, room: Room) -> Result<String, AllocError> {
    let limit = if room.most == MAX_MINUTES {
        " (the most)"
    } else {
        ""
    };
    match room.gap {
        None => format!(in alloc; "{limit}, gap -\n"),
        Some(minutes) if minutes < 0 => format!(in alloc; "{limit}, gap meet\n"),
        Some(minutes) if minutes == i32::from(MAX_MINUTES) => {
            format!(in alloc; "{limit}, gap {minutes} or more\n")
        }
        Some(minutes) => format!(in alloc; "{limit}, gap {minutes}\n"),
    }
}

fn room_line(alloc: Global, plan: &Plan, room: Room) -> Result<Vec<u8>, AllocError>
    ensures { IfOk result (λ line. IsRoomLine plan.now room line.items) }
{
    let end = end_text(alloc, room)?;
    let mut line = Vec::new(alloc);
    push_label(alloc, &mut line, plan, room.job)?;
    line.extend_from_slice(b": max ")?;
    push_number(alloc, &mut line, u128::from(room.max))?;
    line.extend_from_slice(b", safe up to ")?;
    push_number(alloc, &mut line, u128::from(room.most))?;
    line.extend_from_slice(end.as_bytes())?;
    Ok(line)
}

/// A line for each job of a safe plan after the head: first those with the least slack, and among
/// these in the order of jobs. The jobs come with it, in the order of their lines.
pub(crate) fn rooms_text<R: Threads + Sync>(
    rt: &R,
    alloc: Global,
    plan: &Plan,
    head: &[u8],
) -> Result<(Vec<u8>, Vec<u16>), AllocError>
    requires { IsCalledSafe plan.now }
    ensures { IfOk result (λ told. TellsRooms plan.now head.now told.0.items) }
{
    let rooms = rooms_of(rt, alloc, plan)?;
    let each = rooms.as_slice();
    let mut text = Vec::from_slice(alloc, head)?;
    let mut jobs = Vec::new(alloc);
    for room in each {
        let line = room_line(alloc, plan, *room)?;
        text.extend_from_slice(line.as_slice())?;
        jobs.push(room.job)?;
    }
    Ok((text, jobs))
}

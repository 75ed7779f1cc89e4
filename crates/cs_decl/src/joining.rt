ghost use Rattle.std.specs.Prelude.{◌≡◌, option_map, None, IfOk};
ghost use Rattle.std.specs.Prelude.{unsigned_abs};
ghost use Rattle.std.specs.List.{find};
ghost use Rattle.cs_decl.specs.Faults.{first_fault};
ghost use Rattle.cs_decl.specs.Meaning.{IsValid};
ghost use Rattle.cs_plan.specs.Answers.{Answers, unless};
ghost use Rattle.cs_decl.specs.Join.{later_faults, rest, lines_left_out, declared_hours};
ghost use Rattle.cs_plan.specs.Reboot.{is_reboot};
ghost use Rattle.cs_decl.specs.Join.{plan_of, joined, untimed};

use crate::clock::{names_of_clocks, offset_of, zone_of};
use crate::declarations::Declarations;
use crate::entries::Entries;
use crate::join_rows::{mistimed_fault, naming_fault, undeclared_fault};
use crate::lookups::{defaulted, guessed, lines_left_out, untimed};
use crate::terms::{groups_of, jobs_of, small, smaller};
use crate::twice_started::twice_started;
use cs_anacrontab::Anacrontab;
use cs_civil::{Hours, Sequence};
use cs_crontab::Crontab;
use cs_plan::{DeclError, DeclFault, Plan, copy_name};
use std::alloc::{AllocError, Global};

#[tactic(auto, using(crate::proofs::Validity::hours_possible))]
fn hours_of(entries: &Entries) -> Hours
    requires { IsValid entries.now }
    ensures { result ≡ declared_hours entries.now.hours }
{
    let from = u64::from(small(entries.hours.0));
    let to = u64::from(small(entries.hours.1));
    Hours::new(from, to).unwrap()
}

#[tactic(auto, using(crate::proofs::Validity::capacity_possible))]
fn capacity_of(entries: &Entries) -> u8
    requires { IsValid entries.now }
    ensures { result ≡ unsigned_abs entries.now.capacity }
{
    smaller(entries.capacity)
}

#[tactic(auto, using(crate::proofs::Validity::pass_possible))]
fn pass_of(entries: &Entries) -> Option<u16>
    requires { IsValid entries.now }
    ensures { result ≡ option_map unsigned_abs entries.now.pass }
{
    match entries.pass {
        Some(minute) => Some(small(minute)),
        None => None,
    }
}

#[tactic(auto, unfolding(crate::specs::Join::plan_of))]
fn plan_of(
    alloc: Global,
    crontab: Crontab,
    left_out: Sequence<u32>,
    untimed: Option<u32>,
    anacrontab: Anacrontab,
    entries: &Entries,
) -> Result<Plan, AllocError>
    requires valid { IsValid entries.now }
    requires timed { find (λ line. is_reboot line.when) crontab.lines ≡ None }
    ensures { IfOk result (λ plan. plan ≡ plan_of crontab left_out untimed anacrontab entries.now) }
{
    let jobs = jobs_of(alloc, crontab.lines(), anacrontab.lines(), entries)?;
    let groups = groups_of(alloc, entries.groups.as_slice())?;
    let defaulted = defaulted(entries, crontab.lines(), anacrontab.lines());
    let clocks = names_of_clocks(alloc, entries)?;
    let doubled = copy_name(alloc, &entries.doubled)?;
    Ok(Plan::new(
        crontab,
        anacrontab,
        jobs,
        groups,
        capacity_of(entries),
        hours_of(entries),
        pass_of(entries),
        offset_of(entries),
        zone_of(entries),
        clocks,
        left_out,
        defaulted,
        guessed(entries),
        untimed,
        doubled,
    ))
}

#[tactic(auto, using(crate::proofs::Rests::rest_is))]
fn rest_of(
    alloc: Global,
    crontab: Crontab,
    entries: &Entries,
) -> Result<(Crontab, Sequence<u32>), AllocError>
    ensures rest { IfOk result (λ parts. parts.0 ≡ rest entries.now crontab) }
    ensures left_out { IfOk result (λ parts. parts.1 ≡ lines_left_out entries.now crontab) }
{
    let left_out = lines_left_out(alloc, entries, crontab.lines())?;
    Ok((crontab.without(left_out.as_slice()), left_out))
}

#[tactic(auto, using(crate::proofs::Order::one_or_other))]
fn joined_rest(
    alloc: Global,
    crontab: Crontab,
    anacrontab: Anacrontab,
    entries: &Entries,
) -> Result<Plan, DeclError>
    requires { IsValid entries.now }
    ensures { Answers (λ plan. plan)
        (unless (plan_of (rest entries.now crontab) (lines_left_out entries.now crontab)
        (untimed entries.now crontab.lines) anacrontab entries.now)
        (first_fault (later_faults crontab anacrontab entries.now))) result }
{
    let late = mistimed_fault(crontab.lines(), entries);
    let untimed = untimed(entries, crontab.lines());
    let (rest, left_out) = rest_of(alloc, crontab, entries)?;
    let twice = twice_started(alloc, entries, rest.lines())?;
    let undeclared = undeclared_fault(alloc, rest.lines(), anacrontab.lines(), entries)?;
    match undeclared.or(late).or(twice) {
        None => Ok(plan_of(alloc, rest, left_out, untimed, anacrontab, entries)?),
        Some((fault, place)) => Err(DeclError::At { fault, place }),
    }
}

/// Joins tables and declarations to a plan, or returns their first fault.
///
/// First come faults of what entries name in the whole table, each kind at entries of `cron`, then
/// of `anacron`, then of `left_out`: [`NoSuchLine`](DeclFault::NoSuchLine) if an entry names no
/// line or job; [`OtherCommand`](DeclFault::OtherCommand) if its line has another command;
/// [`AmbiguousCommand`](DeclFault::AmbiguousCommand) if it names several lines;
/// [`TwiceDeclared`](DeclFault::TwiceDeclared) if its line has an entry already. Then come faults
/// of jobs that aren't left out: [`Undeclared`](DeclFault::Undeclared) if one has no entry and
/// there is no default; [`RebootLine`](DeclFault::RebootLine) if one is an `@reboot`, declared or
/// not. Then comes [`OtherSchedule`](DeclFault::OtherSchedule), if the line of an entry of `cron`
/// or `left_out` has another schedule. Last comes [`StartsTwice`](DeclFault::StartsTwice), if
/// cron(8) starts a line that isn't left out more than once in a minute by the clock of the zone.
/// Memory may run out.
#[tactic(auto, unfolding(crate::specs::Join::joined))]
pub fn join(
    alloc: Global,
    crontab: Crontab,
    anacrontab: Anacrontab,
    declarations: Declarations,
) -> Result<Plan, DeclError>
    ensures { Answers (λ plan. plan) (joined crontab anacrontab declarations) result }
{
    let entries = declarations.entries();
    match naming_fault(alloc, crontab.lines(), anacrontab.lines(), entries)? {
        None => joined_rest(alloc, crontab, anacrontab, entries),
        Some((fault, place)) => Err(DeclError::At { fault, place }),
    }
}

//! Answers the table of faults of tables and declarations, row after row.
ghost use Rattle.std.specs.Prelude.{◌≡◌, IfOk, option_map};
ghost use Rattle.cs_decl.specs.Faults.{first_fault};
ghost use Rattle.cs_decl.specs.Join.{at_job, lineless, misquoted, ambiguous, named_twice};
ghost use Rattle.cs_plan.specs.Reboot.{at_line};
ghost use Rattle.cs_decl.specs.Join.{naming_faults, undeclared, mistimed};

use crate::entries::Entries;
use crate::lookups::{first_undeclared, first_undeclared_job, jobless};
use crate::naming::{
    ambiguous, ambiguous_cron, cron_numbers, left_out_numbers, lineless, lineless_cron, mistimed,
    mistimed_cron, other, other_cron,
};
use crate::twice::twice_number;
use cs_anacrontab::Job as JobLine;
use cs_civil::{Bytes, Sequence};
use cs_crontab::Line;
use cs_plan::{DeclFault, Found, Place, at_line, first_reboot};
use std::alloc::{AllocError, Global};

fn at_job(
    alloc: Global,
    fault: DeclFault,
    line: Option<&JobLine>,
) -> Result<Option<Found>, AllocError>
    ensures { IfOk result (λ f. f ≡ at_job fault (option_map (λ l. l.now) line.entry)) }
{
    match line {
        Some(line) => {
            let identifier = Bytes::from_slice(alloc, line.identifier())?;
            Ok(Some((fault, Some(Place::Job(identifier)))))
        }
        None => Ok(None),
    }
}

#[tactic(auto, unfolding(crate::specs::Join::lineless))]
fn lineless_fault(lines: &[Line], jobs: &[JobLine], entries: &Entries) -> Option<Found>
    ensures { result ≡ first_fault (lineless lines.now jobs.now entries.now) }
{
    if let Some(i) = lineless_cron(entries.cron.as_slice(), lines) {
        return Some((DeclFault::NoSuchLine, Some(Place::Cron(i))));
    }
    if let Some(i) = jobless(entries.anacron.as_slice(), jobs) {
        return Some((DeclFault::NoSuchLine, Some(Place::Anacron(i))));
    }
    if let Some(i) = lineless(entries.left_out.as_slice(), lines) {
        return Some((DeclFault::NoSuchLine, Some(Place::LeftOut(i))));
    }
    None
}

#[tactic(auto, unfolding(crate::specs::Join::misquoted))]
fn misquoted_fault(lines: &[Line], entries: &Entries) -> Option<Found>
    ensures { result ≡ first_fault (misquoted lines.now entries.now) }
{
    if let Some(i) = other_cron(entries.cron.as_slice(), lines) {
        return Some((DeclFault::OtherCommand, Some(Place::Cron(i))));
    }
    if let Some(i) = other(entries.left_out.as_slice(), lines) {
        return Some((DeclFault::OtherCommand, Some(Place::LeftOut(i))));
    }
    None
}

#[tactic(auto, unfolding(crate::specs::Join::ambiguous))]
fn ambiguous_fault(lines: &[Line], entries: &Entries) -> Option<Found>
    ensures { result ≡ first_fault (ambiguous lines.now entries.now) }
{
    if let Some(i) = ambiguous_cron(entries.cron.as_slice(), lines) {
        return Some((DeclFault::AmbiguousCommand, Some(Place::Cron(i))));
    }
    if let Some(i) = ambiguous(entries.left_out.as_slice(), lines) {
        return Some((DeclFault::AmbiguousCommand, Some(Place::LeftOut(i))));
    }
    None
}

#[tactic(auto, unfolding(crate::specs::Join::named_twice))]
fn twice_fault(
    alloc: Global,
    lines: &[Line],
    entries: &Entries,
) -> Result<Option<Found>, AllocError>
    ensures { IfOk result (λ f. f ≡ first_fault (named_twice lines.now entries.now)) }
{
    let none = Sequence::new(alloc);
    let cron = cron_numbers(alloc, lines, entries)?;
    if let Some(i) = twice_number(alloc, none.as_slice(), cron.as_slice())? {
        return Ok(Some((DeclFault::TwiceDeclared, Some(Place::Cron(i)))));
    }
    let left_out = left_out_numbers(alloc, lines, entries)?;
    if let Some(i) = twice_number(alloc, cron.as_slice(), left_out.as_slice())? {
        return Ok(Some((DeclFault::TwiceDeclared, Some(Place::LeftOut(i)))));
    }
    Ok(None)
}

#[tactic(auto, using(crate::proofs::Order::in_front, crate::proofs::Order::behind))]
pub(crate) fn naming_fault(
    alloc: Global,
    lines: &[Line],
    jobs: &[JobLine],
    entries: &Entries,
) -> Result<Option<Found>, AllocError>
    ensures { IfOk result
        (λ f. f ≡ first_fault (naming_faults lines.now jobs.now entries.now)) }
{
    if let Some(found) = lineless_fault(lines, jobs, entries) {
        return Ok(Some(found));
    }
    if let Some(found) = misquoted_fault(lines, entries) {
        return Ok(Some(found));
    }
    if let Some(found) = ambiguous_fault(lines, entries) {
        return Ok(Some(found));
    }
    twice_fault(alloc, lines, entries)
}

#[tactic(auto, unfolding(crate::specs::Join::mistimed))]
pub(crate) fn mistimed_fault(lines: &[Line], entries: &Entries) -> Option<Found>
    ensures { result ≡ first_fault (mistimed lines.now entries.now) }
{
    if let Some(i) = mistimed_cron(entries.cron.as_slice(), lines) {
        return Some((DeclFault::OtherSchedule, Some(Place::Cron(i))));
    }
    if let Some(i) = mistimed(entries.left_out.as_slice(), lines) {
        return Some((DeclFault::OtherSchedule, Some(Place::LeftOut(i))));
    }
    None
}

#[tactic(auto, unfolding(crate::specs::Join::undeclared))]
pub(crate) fn undeclared_fault(
    alloc: Global,
    lines: &[Line],
    jobs: &[JobLine],
    entries: &Entries,
) -> Result<Option<Found>, AllocError>
    ensures { IfOk result (λ f. f ≡ first_fault (undeclared lines.now jobs.now entries.now)) }
{
    if let Some(line) = first_undeclared(entries, lines) {
        return Ok(at_line(DeclFault::Undeclared, Some(line)));
    }
    if let Some(line) = first_undeclared_job(entries, jobs) {
        return at_job(alloc, DeclFault::Undeclared, Some(line));
    }
    Ok(at_line(DeclFault::RebootLine, first_reboot(lines)))
}

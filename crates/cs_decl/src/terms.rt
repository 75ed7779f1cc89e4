//! Makes the jobs that entries declare.
ghost use Rattle.std.specs.Prelude.{◌≡◌, ◌<◌, ◌≤◌, ◌^◌, ◌++◌, map, length, unsigned_abs, IfOk};
ghost use Rattle.std.specs.Prelude.{OnOk, IfSome, Some, option_map, position, bytes_eq};
ghost use Rattle.std.specs.List.{find};
ghost use Rattle.cs_plan.specs.declared.limits.TheConstants.{MAX_GROUPS};
ghost use Rattle.cs_plan.specs.Job.{IsPossible};
ghost use Rattle.cs_decl.specs.Meaning.{IsValid};
ghost use Rattle.cs_decl.specs.Join.{is_named, is_of_job, group_place, default_terms, cron_terms};
ghost use Rattle.cs_decl.specs.Join.{anacron_terms, cron_job, anacron_job, jobs_from};
ghost use Rattle.cs_decl.specs.Join.{declared_group};

use crate::entries::{AnacronEntry, CronEntry, DefaultEntry, Entries, GroupEntry};
use crate::naming::is_named;
use cs_anacrontab::Job as JobLine;
use cs_civil::{Bytes, Sequence};
use cs_crontab::Line;
use cs_history::Mode;
use cs_plan::{Group, Job};
use std::alloc::{AllocError, Global};

pub(crate) fn small(number: i128) -> u16
    requires { unsigned_abs number < 2 ^ 16 }
    ensures { result ≡ unsigned_abs number }
{
    number.unsigned_abs() as u16
}

pub(crate) fn smaller(number: i128) -> u8
    requires { unsigned_abs number < 2 ^ 8 }
    ensures { result ≡ unsigned_abs number }
{
    number.unsigned_abs() as u8
}

fn group_place(entries: &Entries, name: &Option<Bytes>) -> Option<u8>
    requires { length entries.now.groups ≤ MAX_GROUPS }
    ensures { result ≡ group_place entries.now.groups name.now }
{
    let Some(name) = name else {
        return None;
    };
    match place_of(entries, name) {
        Some(place) => Some(place as u8),
        None => None,
    }
}

fn place_of(entries: &Entries, name: &Bytes) -> Option<usize>
    ensures value { result ≡ position (λ g. bytes_eq name.now g.name) entries.now.groups }
    ensures within { IfSome result (λ i. i < length entries.now.groups) }
{
    entries
        .groups
        .as_slice()
        .iter()
        .position(|group| name.as_slice() == group.name.as_slice())
}

fn cron_entry<'e>(entries: &'e Entries, line: &Line) -> Option<&'e CronEntry>
    ensures { option_map (λ e. e.now) result
        ≡ find (λ e. is_named e.name line.now) entries.now.cron }
{
    entries
        .cron
        .as_slice()
        .iter()
        .find(|entry| is_named(&entry.name, line))
}

fn anacron_entry<'a>(entries: &'a Entries, identifier: &[u8]) -> Option<&'a AnacronEntry>
    ensures { option_map (λ e. e.now) result ≡ find (is_of_job identifier.now) entries.now.anacron }
{
    entries
        .anacron
        .as_slice()
        .iter()
        .find(|entry| entry.identifier.as_slice() == identifier)
}

fn default_job(place: usize, entry: &DefaultEntry) -> Job
    requires { IsPossible (default_terms place (Some entry.now)) }
    ensures { result ≡ default_terms place (Some entry.now) }
{
    Job::new(
        place,
        small(entry.max),
        smaller(entry.weight),
        None,
        Mode::Plain,
    )
}

fn default_terms(place: usize, entries: &Entries) -> Job
    requires { IsPossible (default_terms place entries.now.default) }
    ensures { result ≡ default_terms place entries.now.default }
{
    match &entries.default {
        Some(entry) => default_job(place, entry),
        None => Job::new(place, 1, 1, None, Mode::Plain),
    }
}

fn cron_terms(place: usize, entry: &CronEntry, entries: &Entries) -> Job
    requires few { length entries.now.groups ≤ MAX_GROUPS }
    requires possible { IsPossible (cron_terms entries.now place (Some entry.now)) }
    ensures { result ≡ cron_terms entries.now place (Some entry.now) }
{
    Job::new(
        place,
        small(entry.max),
        smaller(entry.weight),
        group_place(entries, &entry.group),
        entry.mode,
    )
}

fn anacron_terms(place: usize, entry: &AnacronEntry, entries: &Entries) -> Job
    requires few { length entries.now.groups ≤ MAX_GROUPS }
    requires possible { IsPossible (anacron_terms entries.now place (Some entry.now)) }
    ensures { result ≡ anacron_terms entries.now place (Some entry.now) }
{
    Job::new(
        place,
        small(entry.max),
        smaller(entry.weight),
        group_place(entries, &entry.group),
        Mode::Plain,
    )
}

#[tactic(auto, using(crate::proofs::Validity::few_groups, crate::proofs::Validity::default_possible))]
fn cron_job(place: usize, line: &Line, entries: &Entries) -> Job
    requires { IsValid entries.now }
    ensures { result ≡ cron_job entries.now place line.now }
{
    match cron_entry(entries, line) {
        Some(entry) => cron_terms(place, entry, entries),
        None => default_terms(place, entries),
    }
}

#[tactic(auto, using(crate::proofs::Validity::few_groups, crate::proofs::Validity::default_possible))]
fn anacron_job(place: usize, line: &JobLine, entries: &Entries) -> Job
    requires { IsValid entries.now }
    ensures { result ≡ anacron_job entries.now place line.now }
{
    match anacron_entry(entries, line.identifier()) {
        Some(entry) => anacron_terms(place, entry, entries),
        None => default_terms(place, entries),
    }
}

fn push_cron_jobs(
    jobs: &mut Sequence<Job>,
    lines: &[Line],
    entries: &Entries,
) -> Result<(), AllocError>
    requires { IsValid entries.now }
    ensures { OnOk result (jobs.new ≡ jobs.old ++ jobs_from (cron_job entries.now) 0 lines.now) }
{
    for (place, line) in lines.iter().enumerate() {
        jobs.push(cron_job(place, line, entries))?;
    }
    Ok(())
}

fn push_anacron_jobs(
    jobs: &mut Sequence<Job>,
    lines: &[JobLine],
    entries: &Entries,
) -> Result<(), AllocError>
    requires { IsValid entries.now }
    ensures { OnOk result (jobs.new ≡ jobs.old ++ jobs_from (anacron_job entries.now) 0 lines.now) }
{
    for (place, line) in lines.iter().enumerate() {
        jobs.push(anacron_job(place, line, entries))?;
    }
    Ok(())
}

pub(crate) fn jobs_of(
    alloc: Global,
    commands: &[Line],
    lines: &[JobLine],
    entries: &Entries,
) -> Result<Sequence<Job>, AllocError>
    requires { IsValid entries.now }
    ensures { IfOk result
        (λ jobs. jobs
        ≡ jobs_from (cron_job entries.now) 0 commands.now
        ++ jobs_from (anacron_job entries.now) 0 lines.now) }
{
    let mut jobs = Sequence::new(alloc);
    push_cron_jobs(&mut jobs, commands, entries)?;
    push_anacron_jobs(&mut jobs, lines, entries)?;
    Ok(jobs)
}

pub(crate) fn groups_of(
    alloc: Global,
    entries: &[GroupEntry],
) -> Result<Sequence<Group>, AllocError>
    ensures { IfOk result (λ groups. groups ≡ map declared_group entries.now) }
{
    let mut groups = Sequence::new(alloc);
    for entry in entries {
        let name = Bytes::from_slice(alloc, entry.name.as_slice())?;
        groups.push(Group::new(name, entry.exclusive))?;
    }
    Ok(groups)
}

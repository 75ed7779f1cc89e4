//! Finds lines that are left out, jobs without an entry, and entries without a job.
ghost use Rattle.std.specs.Prelude.{◌≡◌, ◌≤◌, ◌+◌, ◌&&◌, not, nat_lt, bytes_eq, length, map, option_map, position};
ghost use Rattle.std.specs.Prelude.{IfOk};
ghost use Rattle.std.specs.List.{find, filter, list_any, count_by};
ghost use Rattle.cs_crontab.specs.declared.limits.TheConstants.{MAX_COMMANDS};
ghost use Rattle.cs_anacrontab.specs.declared.limits.TheConstants.{MAX_JOBS};
ghost use Rattle.cs_decl.specs.Join.{is_of_job, has_no_job, is_left_out, has_entry};
ghost use Rattle.cs_plan.specs.Reboot.{is_reboot};
ghost use Rattle.cs_decl.specs.Join.{has_job_entry, is_undeclared, is_undeclared_job, defaulted};
ghost use Rattle.cs_decl.specs.Join.{guessed, is_named, is_untimed, is_untimed_name, untimed};

use crate::entries::{AnacronEntry, CronEntry, Entries, LineName};
use crate::naming::is_named;
use cs_anacrontab::Job as JobLine;
use cs_civil::Sequence;
use cs_crontab::{Line, When};
use cs_plan::is_reboot;
use std::alloc::{AllocError, Global};

fn is_left_out(entries: &Entries, line: &Line) -> bool
    ensures { result ≡ is_left_out entries.now line.now }
{
    entries
        .left_out
        .as_slice()
        .iter()
        .any(|name| is_named(name, line))
}

fn has_entry(entries: &Entries, line: &Line) -> bool
    ensures { result ≡ has_entry entries.now line.now }
{
    entries
        .cron
        .as_slice()
        .iter()
        .any(|entry| is_named(&entry.name, line))
}

fn has_job_entry(entries: &Entries, line: &JobLine) -> bool
    ensures { result ≡ has_job_entry entries.now line.now }
{
    entries
        .anacron
        .as_slice()
        .iter()
        .any(|entry| entry.identifier.as_slice() == line.identifier())
}

fn has_job(lines: &[JobLine], entry: &AnacronEntry) -> bool
    ensures { result ≡ list_any (λ line. is_of_job line.identifier entry.now) lines.now }
{
    lines
        .iter()
        .any(|line| entry.identifier.as_slice() == line.identifier())
}

fn is_undeclared(entries: &Entries, line: &Line) -> bool
    ensures { result ≡ is_undeclared entries.now line.now }
{
    entries.default.is_none() && !is_reboot(line) && !has_entry(entries, line)
}

fn is_undeclared_job(entries: &Entries, line: &JobLine) -> bool
    ensures { result ≡ is_undeclared_job entries.now line.now }
{
    entries.default.is_none() && !has_job_entry(entries, line)
}

pub(crate) fn jobless(entries: &[AnacronEntry], lines: &[JobLine]) -> Option<usize>
    ensures { result ≡ position (has_no_job lines.now) entries.now }
{
    entries.iter().position(|entry| !has_job(lines, entry))
}

pub(crate) fn first_undeclared<'l>(entries: &Entries, lines: &'l [Line]) -> Option<&'l Line>
    ensures { option_map (λ l. l.now) result ≡ find (is_undeclared entries.now) lines.now }
{
    lines.iter().find(|line| is_undeclared(entries, line))
}

pub(crate) fn first_undeclared_job<'l>(
    entries: &Entries,
    lines: &'l [JobLine],
) -> Option<&'l JobLine>
    ensures { option_map (λ l. l.now) result ≡ find (is_undeclared_job entries.now) lines.now }
{
    lines.iter().find(|line| is_undeclared_job(entries, line))
}

pub(crate) fn lines_left_out(
    alloc: Global,
    entries: &Entries,
    lines: &[Line],
) -> Result<Sequence<u32>, AllocError>
    ensures { IfOk result
        (λ numbers. numbers
        ≡ map (λ line. line.number) (filter (is_left_out entries.now) lines.now)) }
{
    let mut numbers = Sequence::new(alloc);
    for line in lines {
        if is_left_out(entries, line) {
            numbers.push(line.number())?;
        }
    }
    Ok(numbers)
}

fn count_without_entry(entries: &Entries, lines: &[Line]) -> usize
    ensures { result ≡ count_by (λ line. not (has_entry entries.now line)) lines.now }
{
    lines
        .iter()
        .filter(|line| !has_entry(entries, line))
        .count()
}

fn count_jobs_without_entry(entries: &Entries, lines: &[JobLine]) -> usize
    ensures { result ≡ count_by (λ line. not (has_job_entry entries.now line)) lines.now }
{
    lines
        .iter()
        .filter(|line| !has_job_entry(entries, line))
        .count()
}

/// How many jobs have no entry.
#[tactic(auto, using(crate::proofs::Rests::count_within))]
pub(crate) fn defaulted(entries: &Entries, commands: &[Line], lines: &[JobLine]) -> usize
    requires commands { length commands.now ≤ MAX_COMMANDS }
    requires lines { length lines.now ≤ MAX_JOBS }
    ensures { result ≡ defaulted entries.now commands.now lines.now }
{
    count_without_entry(entries, commands) + count_jobs_without_entry(entries, lines)
}

fn count_guesses(entries: &[CronEntry]) -> usize
    ensures { result ≡ count_by (λ e. e.guess) entries.now }
{
    entries.iter().filter(|entry| entry.guess).count()
}

fn count_guesses_of_jobs(entries: &[AnacronEntry]) -> usize
    ensures { result ≡ count_by (λ e. e.guess) entries.now }
{
    entries.iter().filter(|entry| entry.guess).count()
}

/// How many entries are a draft's guess.
pub(crate) fn guessed(entries: &Entries) -> usize
    ensures { result ≡ guessed entries.now }
{
    count_guesses(entries.cron.as_slice()) + count_guesses_of_jobs(entries.anacron.as_slice())
}

fn is_untimed_name(name: &LineName) -> bool
    ensures { result ≡ is_untimed_name name.now }
{
    match &name.when {
        Some(_) => false,
        None => match &name.command {
            Some(_) => true,
            None => false,
        },
    }
}

fn has_untimed_entry(entries: &[CronEntry], line: &Line) -> bool
    ensures { result
        ≡ list_any (λ e. is_named e.name line.now && is_untimed_name e.name) entries.now }
{
    entries.iter().any(|entry| is_named(&entry.name, line) && is_untimed_name(&entry.name))
}

fn has_untimed_name(names: &[LineName], line: &Line) -> bool
    ensures { result
        ≡ list_any (λ name. is_named name line.now && is_untimed_name name) names.now }
{
    names
        .iter()
        .any(|name| is_named(name, line) && is_untimed_name(name))
}

/// Whether several lines have the command.
fn is_shared(lines: &[Line], line: &Line) -> bool
    ensures { result
        ≡ nat_lt 1 (count_by (λ other. bytes_eq other.command line.now.command) lines.now) }
{
    lines
        .iter()
        .filter(|other| other.command() == line.command())
        .count()
        > 1
}

fn is_untimed(entries: &Entries, lines: &[Line], line: &Line) -> bool
    ensures { result ≡ is_untimed entries.now lines.now line.now }
{
    (has_untimed_entry(entries.cron.as_slice(), line)
        || has_untimed_name(entries.left_out.as_slice(), line))
        && is_shared(lines, line)
}

fn first_untimed<'l>(entries: &Entries, lines: &'l [Line]) -> Option<&'l Line>
    ensures { option_map (λ l. l.now) result ≡ find (is_untimed entries.now lines.now) lines.now }
{
    lines.iter().find(|line| is_untimed(entries, lines, line))
}

/// The number of the first line whose entry gives its command and no schedule, while another line
/// has that command too.
pub(crate) fn untimed(entries: &Entries, lines: &[Line]) -> Option<u32>
    ensures { result ≡ untimed entries.now lines.now }
{
    match first_untimed(entries, lines) {
        Some(line) => Some(line.number()),
        None => None,
    }
}

//! Whether warnings name the new commands that lack a lock.
ghost use Rattle.std.specs.Prelude.{◌≡◌, IfOk, IsTrue, codes, filter, map, true};
ghost use Rattle.cs_table.specs.Text.{lines_of};
ghost use Rattle.cs_draft.specs.Draft.{is_unlocked, is_unlocked_job, warn_of};

use crate::kept::is_new;
use crate::names::{entry_of, is_left_out, job_entry};
use crate::told::warning_of;
use cs_anacrontab::{Anacrontab, Job};
use cs_command::{is_below, names_lock};
use cs_crontab::{Crontab, Line};
use cs_decl::Entries;
use cs_table::text::first_line;
use std::alloc::{AllocError, Global};

#[tactic(auto, unfolding(crate::specs::Draft::is_unlocked))]
fn is_unlocked(old: &Entries, entries: &Entries, line: &Line) -> bool
    ensures { result ≡ is_unlocked old.now entries.now line.now }
{
    if !names_lock(line.command()) || !is_new(old, line) || is_left_out(entries, line) {
        return false;
    }
    match entry_of(entries, line) {
        Some(entry) => entry.group.is_none(),
        None => true,
    }
}

fn is_unlocked_job(old: &Entries, job: &Job) -> bool
    ensures { result ≡ is_unlocked_job old.now job.now }
{
    names_lock(job.command()) && job_entry(old, job.identifier()).is_none()
}

fn unlocked_lines(
    alloc: Global,
    old: &Entries,
    entries: &Entries,
    lines: &[Line],
) -> Result<Vec<u32>, AllocError>
    ensures { IfOk result (λ numbers. numbers.items
        ≡ map (λ line. line.number) (filter (is_unlocked old.now entries.now) lines.now)) }
{
    lines
        .iter()
        .filter(|line| is_unlocked(old, entries, line))
        .map(|line| line.number())
        .collect(alloc)
}

fn unlocked_jobs(alloc: Global, old: &Entries, jobs: &[Job]) -> Result<Vec<u32>, AllocError>
    ensures { IfOk result (λ numbers. numbers.items
        ≡ map (λ job. job.number) (filter (is_unlocked_job old.now) jobs.now)) }
{
    jobs.iter()
        .filter(|job| is_unlocked_job(old, job))
        .map(|job| job.number())
        .collect(alloc)
}

#[tactic(auto, unfolding(crate::specs::Draft::warn_of, cs_table::specs::Text::lines_of))]
fn warn_of(alloc: Global, table: &[u8], numbers: &[u32], text: &[u8]) -> Result<bool, AllocError>
    ensures { IfOk result (λ b. b ≡ warn_of table.now numbers.now (lines_of text.now)) }
{
    let mut left = numbers;
    let mut rest = text;
    while let [number, others @ ..] = left {
        if rest.is_empty() {
            return Ok(false);
        }
        let front = warning_of(alloc, table, *number)?;
        let (line, behind) = first_line(rest);
        if is_below(front.as_slice(), line) {
            left = others;
        }
        rest = behind;
    }
    Ok(true)
}

pub(crate) fn are_warned(
    alloc: Global,
    table: &Crontab,
    jobs: &Anacrontab,
    old: &Entries,
    entries: &Entries,
    text: &[u8],
) -> Result<bool, AllocError>
    ensures lines { IfOk result (λ b. IsTrue b → warn_of (codes "crontab")
        (map (λ line. line.number) (filter (is_unlocked old.now entries.now) table.now.lines))
        (lines_of text.now) ≡ true) }
    ensures jobs { IfOk result (λ b. IsTrue b → warn_of (codes "anacrontab")
        (map (λ job. job.number) (filter (is_unlocked_job old.now) jobs.now.lines))
        (lines_of text.now) ≡ true) }
{
    let lines = unlocked_lines(alloc, old, entries, table.lines())?;
    if !warn_of(alloc, b"crontab", lines.as_slice(), text)? {
        return Ok(false);
    }
    let jobs = unlocked_jobs(alloc, old, jobs.lines())?;
    warn_of(alloc, b"anacrontab", jobs.as_slice(), text)
}

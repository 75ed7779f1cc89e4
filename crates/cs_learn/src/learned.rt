//! The longest times that logs give, as `draft` reads them.
ghost use Rattle.std.specs.Prelude.{◌≡◌, All, IfOk, IfSome, IsTrue};
ghost use Rattle.std.specs.List.{list_all};
ghost use Rattle.cs_retrace.specs.Maxes.{has_job, max_of};
ghost use Rattle.cs_learn.specs.Learned.{AreLearned, Gives, IsLearned, IsMaxOf, seconds_since};

use crate::evidence::{Evidence, Ran};
use crate::job::Job;
use crate::log::Log;
use crate::max::{Factor, max_for};
use cs_anacrontab::Job as AnacronJob;
use cs_crontab::Line;
use cs_retrace::{Given, JobName, has_job, max_of, max_of_identifier, read_maxes};
use std::alloc::{AllocError, Global};

fn seconds_since(run: Option<Ran>) -> u64
    ensures { result ≡ seconds_since run }
{
    match run {
        Some(run) => run.seconds,
        None => 0,
    }
}

/// None where no run has ended, or where the max would be more than 4,320 minutes.
#[tactic(auto, using(crate::proofs::MaxLemmas::max_is, crate::proofs::MaxLemmas::no_run))]
pub(crate) fn max_of_job(evidence: &Evidence, factor: Factor) -> Option<u64>
    ensures { IsMaxOf factor evidence.now result }
{
    let since = seconds_since(evidence.longest_open);
    max_for(evidence.longest?.seconds, since, factor)
}

/// A line for each job with a max. Each other job with a run without an end has a comment, unless
/// the logs never give ends of its table.
fn text_of(alloc: Global, log: &Log, factor: Factor) -> Result<Vec<u8>, AllocError> {
    let mut text = Vec::new(alloc);
    for job in log.jobs() {
        let (front, what) = match (max_of_job(&job.evidence, factor), job.evidence.longest_open) {
            (Some(max), _) => ("", format!(in alloc; " {max}\n")?),
            (None, Some(run)) if log.logs_ends(job) => {
                let minutes = run.seconds / 60 + 1;
                let what = ": a run without an end may have taken";
                ("# warning: ", format!(in alloc; "{what} {minutes} min\n")?)
            }
            _ => continue,
        };
        text.extend_from_slice(front.as_bytes())?;
        text.extend_from_slice(job.name.text(alloc)?.as_slice())?;
        text.extend_from_slice(what.as_bytes())?;
    }
    Ok(text)
}

fn give(jobs: &[Job], factor: Factor, given: &[Given]) -> bool
    ensures { IsTrue result → All (Gives factor given.now) jobs.now }
{
    for job in jobs {
        if !gives(job, factor, given) {
            return false;
        }
    }
    true
}

fn gives(job: &Job, factor: Factor, given: &[Given]) -> bool
    ensures { IsTrue result → Gives factor given.now job.now }
{
    max_given(given, &job.name) == max_of_job(&job.evidence, factor)
}

fn max_given(given: &[Given], name: &JobName) -> Option<u64>
    ensures { result ≡ max_of given.now name.now }
{
    match name {
        JobName::Line(number) => max_of(given, *number),
        JobName::Identifier(identifier) => max_of_identifier(given, identifier.as_slice()),
    }
}

fn are_of_jobs(lines: &[Line], others: &[AnacronJob], given: &[Given]) -> bool
    ensures { result ≡ list_all (λ g. has_job lines.now others.now g.name) given.now }
{
    given.iter().all(|one| has_job(lines, others, &one.name))
}

fn are_learned(
    lines: &[Line],
    others: &[AnacronJob],
    jobs: &[Job],
    factor: Factor,
    given: &[Given],
) -> bool
    ensures { IsTrue result → AreLearned lines.now others.now jobs.now factor given.now }
{
    give(jobs, factor, given) && are_of_jobs(lines, others, given)
}

/// Returns lines such as `line 3 25` and `job cron.daily 25`, with the max of each job in minutes.
/// None where the text, read back, differs, which should never happen.
pub(crate) fn learn(
    alloc: Global,
    lines: &[Line],
    others: &[AnacronJob],
    log: &Log,
    factor: Factor,
) -> Result<Option<Vec<u8>>, AllocError>
    ensures { IfOk result (λ found. IfSome found
        (λ text. IsLearned lines.now others.now log.now.jobs.items factor text.items)) }
{
    let text = text_of(alloc, log, factor)?;
    let Ok(given) = read_maxes(alloc, text.as_slice())? else {
        return Ok(None);
    };
    if are_learned(lines, others, log.jobs(), factor, given.as_slice()) {
        return Ok(Some(text));
    }
    Ok(None)
}

//! The subcommand `next`.
ghost use Rattle.std.specs.Prelude.{◌≡◌, ◌≢◌, IfOk, None, Ok, false};
ghost use Rattle.cs_next.specs.Answer.{AreListed};

use crate::from::{read_from, refuse_from};
use crate::json::starts_json;
use crate::starts::next_starts;
use crate::text::starts_text;
use cs_args::NextWords;
use cs_civil::{Bytes, CivilFault, Minute};
use cs_files::{Response, Tables};
use std::alloc::{AllocError, Global};

/// The words' minute, else this one.
fn first_minute(words: &NextWords<'_>, now: Minute) -> Result<Minute, CivilFault>
    ensures { words.now.from ≡ None → result ≡ Ok now }
{
    match words.from {
        Some(text) => read_from(text),
        None => Ok(now),
    }
}

/// Answers `next TABLE [--anacrontab FILE] [--count N] [--from DATE-TIME] [--json]`: the next
/// starts from a minute on, which counts, at most 28 years on. Without `--from` it is `now`. The
/// only error is out of memory.
pub fn answer_next(
    alloc: Global,
    words: &NextWords<'_>,
    now: Minute,
    tables: &Tables,
) -> Result<Response, AllocError>
    ensures listed { words.now.json ≡ false → words.now.from ≡ None
        → IfOk result (AreListed tables.now words.now.count now) }
    ensures done { IfOk result (λ r. r.status ≢ 6) }
{
    let from = match first_minute(words, now) {
        Ok(from) => from,
        Err(fault) => return refuse_from(alloc, fault),
    };
    let count = words.count as usize;
    let (lines, jobs) = (tables.crontab.lines(), tables.jobs.lines());
    let starts = next_starts(alloc, lines, jobs, from, count)?;
    let text = if words.json {
        starts_json(alloc, tables, from, starts.as_slice())?
    } else {
        starts_text(alloc, tables, from, starts.as_slice(), count)?
    };
    Ok(Response::done(text, Bytes::new(alloc)))
}

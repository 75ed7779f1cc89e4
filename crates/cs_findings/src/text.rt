//! Bytes as texts of documents show them, and the columns of a line in letters.

use crate::finding::{Finding, JobTold, Verdict};
use cs_place::{push_hex, push_shown};
use std::alloc::{AllocError, Global};

fn is_utf8(bytes: &[u8]) -> bool {
    str::from_utf8(bytes).is_ok()
}

fn is_text(bytes: &Option<Vec<u8>>) -> bool {
    match bytes {
        Some(bytes) => is_utf8(bytes.as_slice()),
        None => true,
    }
}

fn is_told_as_it_is(job: &JobTold<'_>) -> bool {
    is_utf8(job.name.as_slice())
        && is_utf8(job.command.as_slice())
        && is_text(&job.place)
        && is_text(&job.group)
}

fn are_told_as_they_are(jobs: &[JobTold<'_>]) -> bool {
    for job in jobs {
        if !is_told_as_it_is(job) {
            return false;
        }
    }
    true
}

/// Whether bytes of a verdict are no UTF-8, so that all of its texts are escaped.
pub(crate) fn is_escaped(verdict: &Verdict<'_>) -> bool {
    for event in verdict.story.as_slice() {
        if !is_text(&event.job) {
            return true;
        }
    }
    !are_told_as_they_are(verdict.jobs.as_slice())
}

/// What a verdict says, as a text.
pub(crate) fn message_of(
    alloc: Global,
    words: &[u8],
    verdict: &Verdict<'_>,
) -> Result<String, AllocError> {
    text_of(alloc, words, is_escaped(verdict) || !is_utf8(words))
}

/// The bytes as a text; if they are escaped, a byte that is no UTF-8, `\` and what controls a
/// terminal are `\xNN`. The only error is out of memory.
pub(crate) fn text_of(alloc: Global, bytes: &[u8], escaped: bool) -> Result<String, AllocError> {
    if !escaped {
        return String::from_utf8_lossy(alloc, bytes);
    }
    let mut text = Vec::new(alloc);
    for chunk in bytes.utf8_chunks() {
        push_shown(&mut text, chunk.valid().as_bytes())?;
        for byte in chunk.invalid() {
            push_hex(&mut text, *byte)?;
        }
    }
    String::from_utf8_lossy(alloc, text.as_slice())
}

/// The column, in letters from 1, of a column in bytes.
fn letters_to(line: &[u8], column: u64) -> u64 {
    let mut letters: u64 = 1;
    let mut left = column.saturating_sub(1);
    for byte in line {
        if left == 0 {
            return letters;
        }
        if !(0x80 <= *byte && *byte < 0xc0) {
            letters = letters.saturating_add(1);
        }
        left = left.saturating_sub(1);
    }
    letters
}

/// The columns of a finding's first letter and after its last one, from 1.
pub(crate) fn columns(finding: &Finding<'_>) -> (u64, u64) {
    let line = finding.text.as_slice();
    (
        letters_to(line, finding.column),
        letters_to(line, finding.end),
    )
}

//! What stays of a finding when lines move.

use crate::finding::Finding;
use indexmap::IndexMap;
use sha2::{Digest, Sha256};
use std::alloc::{AllocError, Global};

/// How many bytes of a digest are kept.
const KEPT: usize = 16;

/// The line of a finding, or the commands of a verdict's jobs.
fn push_subject(text: &mut Vec<u8>, finding: &Finding<'_>) -> Result<(), AllocError> {
    let Some(verdict) = finding.verdict.as_ref() else {
        return text.extend_from_slice(finding.text.as_slice());
    };
    for job in verdict.jobs.as_slice() {
        text.extend_from_slice(job.command.as_slice())?;
        text.push(0)?;
    }
    Ok(())
}

fn hash_of(alloc: Global, finding: &Finding<'_>) -> Result<String, AllocError> {
    let mut text = Vec::from_slice(alloc, finding.file.as_bytes())?;
    text.push(0)?;
    text.extend_from_slice(finding.rule.as_str().as_bytes())?;
    text.push(0)?;
    push_subject(&mut text, finding)?;
    text.push(0)?;
    text.extend_from_slice(&finding.column.to_be_bytes())?;
    let digest = Sha256::digest(text.as_slice());
    hex::encode(alloc, &digest[..KEPT])
}

/// A name for each finding, in the same order, that stays when lines of its file move: from the
/// second one with the same name on, `:2` and so on follow. The only error is out of memory.
pub(crate) fn fingerprints(
    alloc: Global,
    findings: &[Finding<'_>],
) -> Result<Vec<String>, AllocError> {
    let mut seen: IndexMap<String, u64> = IndexMap::new(alloc);
    let mut names = Vec::new(alloc);
    for finding in findings {
        let hash = hash_of(alloc, finding)?;
        let count = match seen.get(hash.as_str()) {
            Some(count) => count.saturating_add(1),
            None => 1,
        };
        let name = if count == 1 {
            String::from_str(alloc, hash.as_str())?
        } else {
            format!(in alloc; "{}:{count}", hash.as_str())?
        };
        names.push(name)?;
        seen.insert(hash, count)?;
    }
    Ok(names)
}

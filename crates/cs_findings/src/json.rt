//! Findings as one JSON object, of which docs/findings.schema.json is the schema.

use crate::finding::{Event, Finding, JobTold, TableStatus, Verdict};
use crate::fingerprint::fingerprints;
use crate::level::level_name;
use crate::text::{is_escaped, text_of};
use cs_explain::explain;
use serde::Serialize;
use std::alloc::{AllocError, Global};

#[derive(Clone, Copy, Serialize)]
struct TableText<'a> {
    table: &'a str,
    status: u8,
    #[serde(skip_serializing_if = "Option::is_none")]
    verdict: Option<&'a str>,
}

#[derive(Drop, Serialize)]
struct JobText<'a> {
    name: String,
    file: &'a str,
    line: u64,
    #[serde(skip_serializing_if = "Option::is_none")]
    place: Option<String>,
    command: String,
    max: u64,
    weight: u64,
    #[serde(skip_serializing_if = "Option::is_none")]
    group: Option<String>,
    mode: &'a str,
}

#[derive(Drop, Serialize)]
struct EventText<'a> {
    #[serde(skip_serializing_if = "Option::is_none")]
    minute: Option<&'a str>,
    event: &'a str,
    #[serde(skip_serializing_if = "Option::is_none")]
    job: Option<String>,
}

/// What a verdict adds to a finding.
#[derive(Drop, Serialize)]
struct VerdictText<'a> {
    #[serde(skip_serializing_if = "Option::is_none")]
    escaped: Option<bool>,
    #[serde(skip_serializing_if = "Option::is_none")]
    minute: Option<&'a str>,
    jobs: Vec<JobText<'a>>,
    story: Vec<EventText<'a>>,
}

#[derive(Drop, Serialize)]
struct FindingText<'a> {
    file: &'a str,
    line: u64,
    column: u64,
    end_column: u64,
    level: &'a str,
    rule: &'a str,
    message: &'a str,
    #[serde(skip_serializing_if = "Option::is_none")]
    help: Option<String>,
    fingerprint: String,
    #[serde(flatten, skip_serializing_if = "Option::is_none")]
    verdict: Option<VerdictText<'a>>,
}

#[derive(Drop, Serialize)]
struct Document<'a> {
    version: u8,
    tables: Vec<TableText<'a>>,
    findings: Vec<FindingText<'a>>,
}

fn tables_in<'a>(
    alloc: Global,
    tables: &[TableStatus<'a>],
) -> Result<Vec<TableText<'a>>, AllocError> {
    let mut texts = Vec::new(alloc);
    for table in tables {
        texts.push(TableText {
            table: table.table,
            status: table.status,
            verdict: table.verdict,
        })?;
    }
    Ok(texts)
}

fn text_if_any(
    alloc: Global,
    bytes: &Option<Vec<u8>>,
    escaped: bool,
) -> Result<Option<String>, AllocError> {
    match bytes {
        Some(bytes) => Ok(Some(text_of(alloc, bytes.as_slice(), escaped)?)),
        None => Ok(None),
    }
}

fn lent(text: &Option<String>) -> Option<&str> {
    match text {
        Some(text) => Some(text.as_str()),
        None => None,
    }
}

fn jobs_in<'a>(
    alloc: Global,
    jobs: &'a [JobTold<'a>],
    escaped: bool,
) -> Result<Vec<JobText<'a>>, AllocError> {
    let mut texts = Vec::new(alloc);
    for job in jobs {
        texts.push(JobText {
            name: text_of(alloc, job.name.as_slice(), escaped)?,
            file: job.file,
            line: job.line,
            place: text_if_any(alloc, &job.place, escaped)?,
            command: text_of(alloc, job.command.as_slice(), escaped)?,
            max: job.max,
            weight: job.weight,
            group: text_if_any(alloc, &job.group, escaped)?,
            mode: job.mode,
        })?;
    }
    Ok(texts)
}

fn story_in<'a>(
    alloc: Global,
    story: &'a [Event],
    escaped: bool,
) -> Result<Vec<EventText<'a>>, AllocError> {
    let mut texts = Vec::new(alloc);
    for event in story {
        texts.push(EventText {
            minute: lent(&event.minute),
            event: event.name,
            job: text_if_any(alloc, &event.job, escaped)?,
        })?;
    }
    Ok(texts)
}

fn verdict_in<'a>(
    alloc: Global,
    verdict: &'a Option<Verdict<'a>>,
) -> Result<Option<VerdictText<'a>>, AllocError> {
    let Some(verdict) = verdict else {
        return Ok(None);
    };
    let jobs = verdict.jobs.as_slice();
    let escaped = is_escaped(verdict);
    Ok(Some(VerdictText {
        escaped: if escaped { Some(true) } else { None },
        minute: lent(&verdict.minute),
        jobs: jobs_in(alloc, jobs, escaped)?,
        story: story_in(alloc, verdict.story.as_slice(), escaped)?,
    }))
}

fn finding_in<'a>(
    alloc: Global,
    finding: &'a Finding<'a>,
    fingerprint: String,
) -> Result<FindingText<'a>, AllocError> {
    Ok(FindingText {
        file: finding.file,
        line: finding.line,
        column: finding.column,
        end_column: finding.end,
        level: level_name(finding.level),
        rule: finding.rule.as_str(),
        message: finding.message.as_str(),
        help: explain(alloc, finding.rule.as_str())?,
        fingerprint,
        verdict: verdict_in(alloc, &finding.verdict)?,
    })
}

/// The findings as a JSON object, a line. The only error is out of memory.
pub(crate) fn json<'a>(
    alloc: Global,
    findings: &'a [Finding<'a>],
    tables: &'a [TableStatus<'a>],
) -> Result<Vec<u8>, AllocError> {
    let names = fingerprints(alloc, findings)?;
    let mut texts = Vec::new(alloc);
    for (finding, name) in findings.iter().zip(names) {
        texts.push(finding_in(alloc, finding, name)?)?;
    }
    let document = Document {
        version: 1,
        tables: tables_in(alloc, tables)?,
        findings: texts,
    };
    let Ok(mut text) = serde_json::to_vec(alloc, &document) else {
        return Err(AllocError);
    };
    text.push(b'\n')?;
    Ok(text)
}

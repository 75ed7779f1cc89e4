//! Findings as SARIF 2.1.0, one run of one tool.

use crate::finding::Finding;
use crate::fingerprint::fingerprints;
use crate::level::level_name;
use crate::text::columns;
use cs_args::version_text;
use cs_explain::explain;
use indexmap::IndexSet;
use serde::Serialize;
use std::alloc::{AllocError, Global};

#[derive(Drop, Serialize)]
struct Prose {
    text: String,
}

#[derive(Drop, Serialize)]
#[serde(rename_all = "camelCase")]
struct Rule<'a> {
    id: &'a str,
    short_description: Prose,
    #[serde(skip_serializing_if = "Option::is_none")]
    help: Option<Prose>,
}

#[derive(Drop, Serialize)]
struct Driver<'a> {
    name: &'a str,
    version: &'a str,
    rules: Vec<Rule<'a>>,
}

#[derive(Drop, Serialize)]
struct Tool<'a> {
    driver: Driver<'a>,
}

#[derive(Drop, Serialize)]
struct Artifact {
    uri: String,
}

#[derive(Clone, Copy, Serialize)]
#[serde(rename_all = "camelCase")]
struct Region {
    start_line: u64,
    start_column: u64,
    end_column: u64,
}

#[derive(Drop, Serialize)]
#[serde(rename_all = "camelCase")]
struct Physical {
    artifact_location: Artifact,
    #[serde(skip_serializing_if = "Option::is_none")]
    region: Option<Region>,
}

#[derive(Drop, Serialize)]
#[serde(rename_all = "camelCase")]
struct Location {
    physical_location: Physical,
    #[serde(skip_serializing_if = "Option::is_none")]
    message: Option<Prose>,
}

#[derive(Drop, Serialize)]
struct Prints {
    #[serde(rename = "cronsafe/v1")]
    print: String,
}

#[derive(Drop, Serialize)]
#[serde(rename_all = "camelCase")]
struct Outcome<'a> {
    rule_id: &'a str,
    rule_index: usize,
    level: &'a str,
    message: Prose,
    locations: Vec<Location>,
    #[serde(skip_serializing_if = "Vec::is_empty")]
    related_locations: Vec<Location>,
    partial_fingerprints: Prints,
}

#[derive(Drop, Serialize)]
#[serde(rename_all = "camelCase")]
struct Run<'a> {
    tool: Tool<'a>,
    column_kind: &'a str,
    results: Vec<Outcome<'a>>,
}

#[derive(Drop, Serialize)]
struct Document<'a> {
    #[serde(rename = "$schema")]
    schema: &'a str,
    version: &'a str,
    runs: Vec<Run<'a>>,
}

fn prose_of(alloc: Global, text: &str) -> Result<Prose, AllocError> {
    Ok(Prose {
        text: String::from_str(alloc, text)?,
    })
}

/// The meaning in a few words that an explanation begins with, after a heading.
fn short_words<'a>(explained: &'a str, rule: &str) -> &'a str {
    let Some(line) = explained.split('\n').nth(1) else {
        return explained;
    };
    match line.trim_start().strip_prefix(rule) {
        Some(rest) => rest.trim_start_matches(": "),
        None => line,
    }
}

fn rule_in<'a>(alloc: Global, id: &'a str) -> Result<Rule<'a>, AllocError> {
    let Some(text) = explain(alloc, id)? else {
        return Ok(Rule {
            id,
            short_description: prose_of(alloc, id)?,
            help: None,
        });
    };
    Ok(Rule {
        id,
        short_description: prose_of(alloc, short_words(text.as_str(), id))?,
        help: Some(Prose { text }),
    })
}

fn is_plain(byte: u8) -> bool {
    byte.is_ascii_alphanumeric() || matches!(byte, b'-' | b'.' | b'_' | b'~' | b'/')
}

/// The path as a reference of RFC 3986: each other byte is `%NN`.
fn uri_of(alloc: Global, path: &str) -> Result<String, AllocError> {
    const DIGITS: &[u8; 16] = b"0123456789ABCDEF";
    let mut text = Vec::new(alloc);
    for byte in path.as_bytes() {
        if is_plain(*byte) {
            text.push(*byte)?;
        } else {
            let (high, low) = (usize::from(*byte / 16), usize::from(*byte % 16));
            text.extend_from_slice(&[b'%', DIGITS[high], DIGITS[low]])?;
        }
    }
    String::from_utf8_lossy(alloc, text.as_slice())
}

fn place_at(
    alloc: Global,
    file: &str,
    region: Option<Region>,
    message: Option<Prose>,
) -> Result<Location, AllocError> {
    Ok(Location {
        physical_location: Physical {
            artifact_location: Artifact {
                uri: uri_of(alloc, file)?,
            },
            region,
        },
        message,
    })
}

fn region_of(finding: &Finding<'_>) -> Option<Region> {
    if finding.line == 0 {
        return None;
    }
    let (start_column, end_column) = columns(finding);
    Some(Region {
        start_line: finding.line,
        start_column,
        end_column,
    })
}

/// The places of the jobs of a verdict after the first one.
fn related(alloc: Global, finding: &Finding<'_>) -> Result<Vec<Location>, AllocError> {
    let mut places = Vec::new(alloc);
    let Some(verdict) = finding.verdict.as_ref() else {
        return Ok(places);
    };
    for job in verdict.jobs.as_slice().iter().skip(1) {
        let region = Region {
            start_line: job.line,
            start_column: 1,
            end_column: 1,
        };
        let name = Prose {
            text: String::from_utf8_lossy(alloc, job.name.as_slice())?,
        };
        places.push(place_at(alloc, job.file, Some(region), Some(name))?)?;
    }
    Ok(places)
}

fn result_in<'a>(
    alloc: Global,
    finding: &'a Finding<'_>,
    rule_index: usize,
    print: String,
) -> Result<Outcome<'a>, AllocError> {
    let mut locations = Vec::new(alloc);
    locations.push(place_at(alloc, finding.file, region_of(finding), None)?)?;
    Ok(Outcome {
        rule_id: finding.rule.as_str(),
        rule_index,
        level: level_name(finding.level),
        message: prose_of(alloc, finding.message.as_str())?,
        locations,
        related_locations: related(alloc, finding)?,
        partial_fingerprints: Prints { print },
    })
}

/// The findings as a SARIF log, a line. The only error is out of memory.
pub(crate) fn sarif(alloc: Global, findings: &[Finding<'_>]) -> Result<Vec<u8>, AllocError> {
    let prints = fingerprints(alloc, findings)?;
    let mut ids = IndexSet::new(alloc);
    let (mut rules, mut results) = (Vec::new(alloc), Vec::new(alloc));
    for (finding, print) in findings.iter().zip(prints) {
        let rule = finding.rule.as_str();
        let (index, is_new) = ids.insert_full(rule)?;
        if is_new {
            rules.push(rule_in(alloc, rule)?)?;
        }
        results.push(result_in(alloc, finding, index, print)?)?;
    }
    log_of(alloc, rules, results)
}

fn log_of<'a>(
    alloc: Global,
    rules: Vec<Rule<'a>>,
    results: Vec<Outcome<'a>>,
) -> Result<Vec<u8>, AllocError> {
    let driver = Driver {
        name: "cronsafe",
        version: version_text().trim().trim_start_matches("cronsafe "),
        rules,
    };
    let mut runs = Vec::new(alloc);
    runs.push(Run {
        tool: Tool { driver },
        column_kind: "unicodeCodePoints",
        results,
    })?;
    let document = Document {
        schema: "https://json.schemastore.org/sarif-2.1.0.json",
        version: "2.1.0",
        runs,
    };
    let Ok(mut text) = serde_json::to_vec(alloc, &document) else {
        return Err(AllocError);
    };
    text.push(b'\n')?;
    Ok(text)
}

//! The members of each object of declarations, their values and ranges.
use crate::entry::{Entry, Kind};
use crate::findings::{Done, Findings};
use crate::names::{meant, nearest, quoted};
use crate::object::Object;
use crate::span::Span;
use cs_civil::MINUTES_OF_DAY;
use cs_crontab::{Entry as Line, read_line};
use cs_plan::{DeclFault, MAX_CAPACITY, MAX_MINUTES, MAX_WEIGHT};
use indexmap::IndexSet;
use serde_json::Value;
use std::alloc::{AllocError, Global};

/// How many members are compared with the name of a missing one.
const MAX_LOOKED_AT: usize = 100;

/// Whether the whole has a member of that name, or a misspelt one. The only error is out of memory.
pub fn has_meant(alloc: Global, whole: &Object<'_>, name: &str) -> Result<bool, AllocError> {
    let [.., known] = Kind::Whole.texts();
    let known = known.split_whitespace().collect::<Vec<&str>>(alloc)?;
    for (member, _) in whole.members.iter().take(MAX_LOOKED_AT) {
        if nearest(alloc, member.as_str(), known.as_slice())? == Some(name) {
            return Ok(true);
        }
    }
    Ok(false)
}

fn whole(value: &Value) -> Option<i128> {
    value.as_number()?.as_i128()
}

/// Whether these are two minutes of a day, the first before the last; none if they aren't two whole
/// numbers.
fn are_hours(value: &Value) -> Option<bool> {
    let [first, last] = value.as_array()?.as_slice() else {
        return None;
    };
    let (from, to) = (whole(first)?, whole(last)?);
    Some(0 <= from && from < to && to <= i128::from(MINUTES_OF_DAY))
}

/// Whether these are the minutes of a whole day.
pub(crate) fn are_all_hours(value: &Value) -> bool {
    let Some(hours) = value.as_array() else {
        return false;
    };
    match hours.as_slice() {
        [first, last] => whole(first) == Some(0) && whole(last) == Some(i128::from(MINUTES_OF_DAY)),
        _ => false,
    }
}

const WHOLE: &str = "a whole number: no quotes, point or exponent";

const TEXT: &str = "text, in double quotes";

const HOURS: &str = "two minutes of the day, [FROM, TO]";

const MODE: &str = "one of \"none\", \"skip\", \"try\", \"wait\" and \"shared\"";

const MODES: &str = "none skip try wait shared";

/// Whether the text is five fields of a line, or its word, as the readers of declarations take one.
fn is_when(alloc: Global, text: &str) -> Result<bool, AllocError> {
    let mut line = Vec::from_slice(alloc, text.as_bytes())?;
    line.extend_from_slice(b" x".as_slice())?;
    match read_line(line.as_slice()) {
        Ok(Line::Command(_, command)) => Ok(command == b"x".as_slice()),
        _ => Ok(false),
    }
}

fn find_in_value(
    findings: &mut Findings,
    entry: &Entry<'_>,
    name: &str,
    (value, span): (&Value, Span),
) -> Done {
    let (is_so, wanted) = match name {
        "anacron" | "cron" | "groups" | "left_out" | "parts" => (value.is_array(), "a list, [..]"),
        "default" => (value.is_object(), "an object, {..}"),
        "exclusive" | "guess" => (value.is_boolean(), "true or false"),
        "hours" => (are_hours(value).is_some(), HOURS),
        "mode" => (value.is_string(), MODE),
        "command" | "group" | "id" | "name" | "note" | "when" | "zone" => (value.is_string(), TEXT),
        _ => (whole(value).is_some(), WHOLE),
    };
    if !is_so {
        let why = format_args!("\"{name}\" is {wanted}");
        return findings.fault_of(entry, span, DeclFault::BadShape, why);
    }
    match (name, value.as_str()) {
        ("hours", _) if are_hours(value) == Some(false) => {
            let why = "\"hours\" is [FROM, TO], from 0 to 1440, FROM before TO";
            findings.fault_of(entry, span, DeclFault::BadHours, why)
        }
        ("mode", Some(mode)) if !is_among(MODES, mode) => {
            find_none(findings, span, mode, ("no mode", MODES, "the modes are"))
        }
        ("when", Some(told)) if !is_when(findings.alloc, told)? => {
            let why = "\"when\" is the five fields of a line, or its @ word";
            findings.fault_of(entry, span, DeclFault::BadShape, why)
        }
        _ => find_in_range(findings, entry, name, (value, span)),
    }
}

fn is_among(names: &str, name: &str) -> bool {
    for known in names.split_whitespace() {
        if known == name {
            return true;
        }
    }
    false
}

/// Adds the fault that a name isn't among the known ones. `says` are what it is, the known names,
/// and the words before them.
fn find_none(findings: &mut Findings, span: Span, name: &str, says: (&str, &str, &str)) -> Done {
    if !findings.takes_fault(span) {
        return Ok(());
    }
    let (alloc, (is, known, otherwise), fault) = (findings.alloc, says, DeclFault::BadShape);
    let hint = meant(alloc, name, "\"", known, otherwise)?;
    let text = quoted(alloc, name)?;
    findings.fault(span, format_args!("{fault}: {text} is {is}: {hint}"))
}

fn find_in_range(
    findings: &mut Findings,
    entry: &Entry<'_>,
    name: &str,
    (value, span): (&Value, Span),
) -> Done {
    let bad_max = match entry.kind {
        Kind::Part => DeclFault::BadParts,
        _ => DeclFault::BadMax,
    };
    let (low, high, fault, unit) = match name {
        "capacity" => (1, i64::from(MAX_CAPACITY), DeclFault::BadCapacity, ""),
        "max" => (1, i64::from(MAX_MINUTES), bad_max, ", in minutes"),
        "offset" => (-1439, 1439, DeclFault::BadShape, ", in minutes east of UTC"),
        "pass" => (0, 1439, DeclFault::BadPassMinute, ", a minute of the day"),
        "weight" => (1, i64::from(MAX_WEIGHT), DeclFault::BadWeight, ""),
        _ => return Ok(()),
    };
    match whole(value) {
        Some(number) if number < i128::from(low) || i128::from(high) < number => {
            let why = format_args!("\"{name}\" is from {low} to {high}{unit}");
            findings.fault_of(entry, span, fault, why)
        }
        _ => Ok(()),
    }
}

fn find_lacking(findings: &mut Findings, entry: &Entry<'_>) -> Done {
    let ([_, _, called, known], bracket) = (entry.kind.texts(), entry.object.bracket);
    for name in known.split_whitespace() {
        let is_needed = matches!(name, "capacity" | "exclusive" | "id" | "max" | "name");
        let is_label = name == "name" && matches!(entry.kind, Kind::Cron);
        if is_needed && !is_label && !entry.object.has(name) {
            let why = format_args!("\"{name}\" is required: add it to {called}");
            findings.fault_of(entry, bracket, DeclFault::BadShape, why)?;
        }
    }
    let has_none = !entry.object.has("line") && !entry.object.has("command");
    if has_none && matches!(entry.kind, Kind::Cron | Kind::LeftOut) {
        let why = format_args!("\"line\" or \"command\" is required: add one to {called}");
        findings.fault_of(entry, bracket, DeclFault::BadShape, why)?;
    }
    Ok(())
}

/// Adds the faults of an object and of its members.
pub(crate) fn find_in_entry(findings: &mut Findings, entry: &Entry<'_>) -> Done {
    if !entry.is_object {
        let [_, _, called, _] = entry.kind.texts();
        let why = format_args!("{called} is an object: write {{..}}");
        return findings.fault_of(entry, entry.place, DeclFault::BadShape, why);
    }
    let mut counted = IndexSet::new(findings.alloc);
    for (name, part) in entry.object.members.iter().rev() {
        let name = name.as_str();
        if counted.insert(name)? {
            find_in_member(findings, entry, name, part.name)?;
        }
    }
    find_lacking(findings, entry)
}

/// Adds the fault of a member whose name is at that place.
fn find_in_member(findings: &mut Findings, entry: &Entry<'_>, name: &str, span: Span) -> Done {
    let [.., known] = entry.kind.texts();
    if entry.kind == Kind::Anacron && name == "mode" {
        let why = "remove \"mode\": anacron jobs take no lock";
        return findings.fault_of(entry, span, DeclFault::ModeOnAnacron, why);
    }
    if !is_among(known, name) {
        return find_none(findings, span, name, ("unknown", known, "known are"));
    }
    match entry.object.member(name) {
        Some(part) => find_in_value(findings, entry, name, part),
        None => Ok(()),
    }
}

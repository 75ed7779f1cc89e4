//! Faults of the zone of declarations, and of members that can't stand beside one.
use crate::entry::Entry;
use crate::findings::{Done, Findings};
use crate::shape::are_all_hours;
use crate::span::Span;
use cs_plan::DeclFault;
use cs_rule::{RuleFault, read_rule};

/// Whether it may be the name of a zone's file.
fn is_name(text: &str) -> bool {
    for byte in text.bytes() {
        if !byte.is_ascii_alphanumeric() && !b"/_-+".contains(&byte) {
            return false;
        }
    }
    text.contains('/')
}

/// Adds what is wrong with a zone's rule, and where a name is given in its place how to get the rule.
fn find_in_rule(
    findings: &mut Findings,
    whole: &Entry<'_>,
    (text, span): (&str, Span),
    fault: RuleFault,
) -> Done {
    let why = fault.text();
    if !matches!(fault, RuleFault::NoRule) {
        return findings.fault_of(whole, span, DeclFault::BadZone, why);
    }
    let name = if is_name(text) { text } else { "Europe/Berlin" };
    let why = format_args!("{why}, as 'tail -n 1 /usr/share/zoneinfo/{name}' prints it");
    findings.fault_of(whole, span, DeclFault::BadZone, why)
}

/// Adds the fault that a member stands beside a zone.
fn find_beside(
    findings: &mut Findings,
    whole: &Entry<'_>,
    name: &str,
    fault: DeclFault,
    why: &str,
) -> Done {
    match whole.object.member(name) {
        Some((_, span)) => findings.fault_of(whole, span, fault, why),
        None => Ok(()),
    }
}

/// Adds the faults of the zone, and those of members beside it.
pub(crate) fn find_in_zone(findings: &mut Findings, whole: &Entry<'_>) -> Done {
    let Some((text, span)) = whole.object.text("zone") else {
        return Ok(());
    };
    if let Err(fault) = read_rule(text.as_bytes()) {
        find_in_rule(findings, whole, (text, span), fault)?;
    }
    let why = "remove \"offset\": the zone has one";
    find_beside(findings, whole, "offset", DeclFault::BadShape, why)?;
    if let Some((hours, span)) = whole.object.member("hours") {
        if !are_all_hours(hours) {
            let why = "remove \"hours\", or declare an \"offset\" in place of the zone";
            findings.fault_of(whole, span, DeclFault::HoursInZone, why)?;
        }
    }
    let why = "remove \"pass\", or declare an \"offset\" in place of the zone";
    find_beside(findings, whole, "pass", DeclFault::PassInZone, why)
}

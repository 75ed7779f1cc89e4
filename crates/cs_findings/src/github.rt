//! Findings as the lines that GitHub's workflows take for annotations.

use crate::finding::Finding;
use crate::text::columns;
use cs_diagnostics::Level;
use std::alloc::{AllocError, Global};

fn command_of(level: Level) -> &'static str {
    match level {
        Level::Error => "::error",
        Level::Warning => "::warning",
        Level::Note => "::notice",
    }
}

/// Adds a text, with `%` and what would end it as `%NN`: the ends of lines, and in a property also
/// `:` and `,`.
fn push_escaped(text: &mut String, words: &str, is_property: bool) -> Result<(), AllocError> {
    for letter in words.chars() {
        match letter {
            '%' => text.push_str("%25")?,
            '\r' => text.push_str("%0D")?,
            '\n' => text.push_str("%0A")?,
            ':' if is_property => text.push_str("%3A")?,
            ',' if is_property => text.push_str("%2C")?,
            _ => text.push(letter)?,
        }
    }
    Ok(())
}

fn push_finding(alloc: Global, text: &mut String, finding: &Finding<'_>) -> Result<(), AllocError> {
    text.push_str(command_of(finding.level))?;
    text.push_str(" file=")?;
    push_escaped(text, finding.file, true)?;
    if finding.line > 0 {
        let line = finding.line;
        let (column, end) = columns(finding);
        let region = format!(in alloc; ",line={line},col={column},endColumn={end}")?;
        text.push_str(region.as_str())?;
    }
    text.push_str(",title=")?;
    push_escaped(text, finding.rule.as_str(), true)?;
    text.push_str("::")?;
    push_escaped(text, finding.message.as_str(), false)?;
    text.push_str("\n")
}

/// A line for each finding. The only error is out of memory.
pub(crate) fn github(alloc: Global, findings: &[Finding<'_>]) -> Result<Vec<u8>, AllocError> {
    let mut text = String::new(alloc);
    for finding in findings {
        push_finding(alloc, &mut text, finding)?;
    }
    Ok(text.into_bytes())
}

use cs_args::Format;
use cs_diagnostics::{Done, Findings, Span};
use std::fmt::Display;

/// Which odd findings are reported. The words have names from `cronsafe explain` with commas
/// between them, in any letter case; a finding without a name has the empty one. Faults are always
/// reported.
#[derive(Clone, Copy)]
pub struct Wanted<'a> {
    /// Only these; all if there are none.
    pub only: &'a [&'a str],
    /// Not these.
    pub except: &'a [&'a str],
    /// None of them.
    pub faults_only: bool,
}

/// What is asked of texts.
#[derive(Clone, Copy)]
pub struct Asked<'a, 'w> {
    /// The path of the crontab.
    pub table: &'a str,
    /// The path of the declarations.
    pub declarations: Option<&'a str>,
    /// The path of the anacrontab.
    pub anacrontab: Option<&'a str>,
    /// Which odd findings are reported.
    pub wanted: Wanted<'w>,
    /// The form in which findings are printed.
    pub format: Format,
}

/// Whether the name is in the word, in any letter case.
pub(crate) fn has_name(word: &str, name: &str) -> bool {
    for own in word.split(',') {
        if own.eq_ignore_ascii_case(name) {
            return true;
        }
    }
    false
}

fn have_name(words: &[&str], name: &str) -> bool {
    for word in words {
        if has_name(word, name) {
            return true;
        }
    }
    false
}

impl Wanted<'_> {
    pub(crate) fn tells(&self, name: &str) -> bool {
        let is_asked = self.only.is_empty() || have_name(self.only, name);
        !self.faults_only && is_asked && !have_name(self.except, name)
    }

    /// Adds an odd finding of that name, if it is wanted.
    pub(crate) fn odd(
        &self,
        findings: &mut Findings,
        place: Span,
        name: &str,
        why: impl Display + Drop,
    ) -> Done {
        if !self.tells(name) {
            return Ok(());
        }
        if name.is_empty() {
            return findings.odd(place, why);
        }
        findings.odd(place, format_args!("{name}: {why}"))
    }
}

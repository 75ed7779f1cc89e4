use crate::wanted::Wanted;
use cs_diagnostics::{Done, Entry, Findings, Span, parts_in, quoted};
use indexmap::IndexSet;
use std::fmt::Display;

/// Findings in the declarations of these bytes.
#[derive(Drop)]
pub(crate) struct Tell<'w> {
    pub(crate) findings: Findings,
    pub(crate) wanted: Wanted<'w>,
    pub(crate) bytes: &'w [u8],
}

impl Tell<'_> {
    /// Adds an odd finding of that name, if it is wanted.
    pub(crate) fn odd(&mut self, span: Span, name: &str, why: impl Display + Drop) -> Done {
        self.wanted.odd(&mut self.findings, span, name, why)
    }

    /// Reports members that an entry has twice.
    pub(crate) fn find_again(&mut self, entry: &Entry<'_>) -> Done {
        let mut counted = IndexSet::new(self.findings.alloc);
        for (name, part) in entry.object.members.iter().rev() {
            let name = name.as_str();
            if !counted.insert(name)? {
                let text = quoted(self.findings.alloc, name)?;
                let why = "is given again later, and only the last one counts: remove one";
                self.odd(part.name, "", format_args!("{text} {why}"))?;
            }
        }
        Ok(())
    }

    fn find_again_in_parts(&mut self, entry: &Entry<'_>) -> Done {
        let parts = parts_in(self.findings.alloc, self.bytes, entry)?;
        for part in parts.iter() {
            self.find_again(part)?;
        }
        Ok(())
    }

    /// The same for entries and their parts.
    pub(crate) fn find_again_in(&mut self, entries: &[Entry<'_>]) -> Done {
        for entry in entries {
            self.find_again(entry)?;
            self.find_again_in_parts(entry)?;
        }
        Ok(())
    }
}

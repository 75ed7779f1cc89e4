//! One of the two plans, and what people call its jobs.
use crate::page::Page;
use cs_crontab::Line;
use cs_decl::{CronEntry, is_named};
use cs_plan::{Plan, identifier_of};
use cs_table::text::word;
use std::alloc::AllocError;

/// The plan before an edit, or the one after it.
#[derive(Clone, Copy)]
pub(crate) struct Side<'a> {
    pub(crate) plan: &'a Plan,
    /// What is declared of cron jobs.
    pub(crate) entries: &'a [CronEntry],
    /// The rule of the zone that is declared; empty without one.
    pub(crate) zone: &'a [u8],
    /// The text of the crontab.
    pub(crate) text: &'a [u8],
}

fn label_of<'a>(entries: &'a [CronEntry], line: &Line) -> Option<&'a [u8]> {
    for entry in entries {
        if is_named(&entry.name, line) {
            let label = entry.label.as_ref()?;
            return Some(label.as_slice());
        }
    }
    None
}

/// What stands after the last `/`.
fn last_part(path: &[u8]) -> &[u8] {
    let mut part = path;
    for (place, byte) in path.iter().enumerate() {
        if *byte == b'/' {
            part = &path[place + 1..];
        }
    }
    part
}

impl<'a> Side<'a> {
    /// The line of that number, from 1.
    fn text_of(self, number: u32) -> &'a [u8] {
        let mut at = 0u32;
        for line in self.text.split(|byte| *byte == b'\n') {
            at = at.saturating_add(1);
            if at == number {
                return line;
            }
        }
        &[]
    }

    fn leaves_out(self, text: &[u8]) -> bool {
        for number in self.plan.left_out() {
            if self.text_of(*number) == text {
                return true;
            }
        }
        false
    }

    /// Adds `left out: line 2: LINE` for each line that is left out, and wasn't before.
    pub(crate) fn push_left_out(self, page: &mut Page, old: Side<'_>) -> Result<(), AllocError> {
        for number in self.plan.left_out() {
            let line = self.text_of(*number);
            if !old.leaves_out(line) {
                page.begin()?;
                page.words("left out: line ")?;
                page.number(u64::from(*number))?;
                page.words(": ")?;
                page.code(line)?;
                page.end()?;
            }
        }
        Ok(())
    }

    pub(crate) fn line(self, job: u16) -> Option<&'a Line> {
        self.plan.crontab().lines().get(usize::from(job))
    }

    /// The declared name of a job, else the last part of the first word of its command; the
    /// identifier of an anacron job.
    pub(crate) fn name(self, job: u16) -> &'a [u8] {
        let Some(line) = self.line(job) else {
            return identifier_of(self.plan, usize::from(job));
        };
        match label_of(self.entries, line) {
            Some(label) if !label.is_empty() => label,
            _ => last_part(word(line.command()).0),
        }
    }

    /// Whether no other job has its name.
    pub(crate) fn is_lone(self, job: u16) -> bool {
        let (name, count) = (self.name(job), self.plan.jobs().len() as u16);
        for other in 0..count {
            if other != job && self.name(other) == name {
                return false;
            }
        }
        true
    }
}

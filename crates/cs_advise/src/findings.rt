//! Rooms and changes as programs read them: a finding for each that the text has, in its order.
use crate::change::{Change, Member};
use crate::edit::edit_of;
use crate::source::Source;
use cs_args::JudgeWords;
use cs_diagnostics::{Level, Told};
use cs_findings::Finding;
use cs_plan::Plan;
use std::alloc::{AllocError, Global};

/// Of what the lines of a text are.
#[derive(Drop)]
pub(crate) enum Said {
    /// Of the rooms of these jobs, a line each, after those of a head.
    Rooms(Vec<u16>),
    /// Of these changes.
    Changes(Vec<Change>),
    /// Of a verdict.
    Verdict,
}

/// A line of a file.
#[derive(Clone, Copy)]
struct Line<'a, 'p> {
    path: &'a str,
    number: u64,
    /// The bytes of the file; none if they aren't at hand.
    file: &'p [u8],
}

impl<'a, 'p> Line<'a, 'p> {
    fn text(self) -> &'p [u8] {
        let mut number = 0u64;
        for line in self.file.split(|byte| *byte == b'\n') {
            number = number.saturating_add(1);
            if number == self.number {
                return line;
            }
        }
        &[]
    }

    /// A note on it, with words in which each newline stands as a blank.
    fn note(self, alloc: Global, rule: &str, words: &[u8]) -> Result<Finding<'a>, AllocError> {
        let text = Vec::from_slice(alloc, self.text())?;
        let told = Told {
            line: self.number,
            column: 1,
            end: (text.len() as u64).saturating_add(1),
            level: Level::Note,
            words: String::from_utf8_lossy(alloc, words)?,
            text,
        };
        let mut finding = Finding::of(alloc, self.path, &told)?;
        finding.rule = String::from_str(alloc, rule)?;
        Ok(finding)
    }
}

/// What a finding may stand at.
#[derive(Clone, Copy)]
struct Places<'a, 'p> {
    words: JudgeWords<'a>,
    source: &'p Source,
    plan: &'p Plan,
}

impl<'a, 'p> Places<'a, 'p> {
    /// The line of a job.
    fn of_job(self, job: u16) -> Line<'a, 'p> {
        let (job, crons) = (usize::from(job), self.plan.crons());
        if let Some(line) = self.plan.crontab().lines().get(job) {
            return Line {
                path: self.words.table,
                number: u64::from(line.number()),
                file: self.source.table.as_slice(),
            };
        }
        let job = self
            .plan
            .anacrontab()
            .lines()
            .get(job.saturating_sub(crons));
        Line {
            path: self.words.anacrontab.unwrap_or(""),
            number: match job {
                Some(job) => u64::from(job.number()),
                None => 0,
            },
            file: &[],
        }
    }

    /// The line of the declarations that another value of a member changes.
    fn of_member(self, alloc: Global, member: &Member) -> Result<Line<'a, 'p>, AllocError> {
        let file = self.source.declarations.as_slice();
        let number = match edit_of(alloc, self.plan, file, member)? {
            Some(edit) => first_change(file, edit.text.as_slice()),
            None => 0,
        };
        Ok(Line {
            path: self.words.declarations,
            number,
            file,
        })
    }

    fn of_change(self, alloc: Global, change: &Change) -> Result<Line<'a, 'p>, AllocError> {
        match change {
            Change::Start(start) => Ok(self.of_job(start.job)),
            Change::Both(one, _) => Ok(self.of_job(one.job)),
            Change::Member(member) => self.of_member(alloc, member),
        }
    }
}

/// The number of the first line in which a text differs from another.
fn first_change(old: &[u8], new: &[u8]) -> u64 {
    let mut number = 1u64;
    for (one, other) in old.iter().zip(new.iter()) {
        if *one != *other {
            return number;
        }
        if *one == b'\n' {
            number = number.saturating_add(1);
        }
    }
    number
}

/// How many lines a change has in the text.
fn lines_of(change: &Change) -> usize {
    match change {
        Change::Both(_, _) => 3,
        _ => 1,
    }
}

/// Takes so many lines off the text, without the last newline; the others stay as blanks.
fn take_lines(alloc: Global, text: &mut &[u8], count: usize) -> Result<Vec<u8>, AllocError> {
    let mut words = Vec::new(alloc);
    let mut left = count;
    for _ in 0..text.len() {
        let [byte, rest @ ..] = *text else {
            break;
        };
        *text = rest;
        if *byte != b'\n' {
            words.push(*byte)?;
            continue;
        }
        left = left.saturating_sub(1);
        if left == 0 {
            break;
        }
        words.push(b' ')?;
    }
    Ok(words)
}

/// A finding for each room or change of which the lines are, in their order; none of a verdict.
pub(crate) fn told_findings<'a, 'p>(
    alloc: Global,
    words: &JudgeWords<'a>,
    source: &'p Source,
    plan: &'p Plan,
    said: &Said,
    text: &[u8],
) -> Result<Vec<Finding<'a>>, AllocError> {
    let places = Places {
        words: *words,
        source,
        plan,
    };
    let mut rest = text;
    let mut findings = Vec::new(alloc);
    match said {
        Said::Rooms(jobs) => {
            if rest.starts_with(b"safe\n".as_slice()) {
                let _head = take_lines(alloc, &mut rest, 1)?;
            }
            for job in jobs.as_slice() {
                let line = take_lines(alloc, &mut rest, 1)?;
                findings.push(places.of_job(*job).note(alloc, "Room", line.as_slice())?)?;
            }
        }
        Said::Changes(changes) => {
            for change in changes.as_slice() {
                let lines = take_lines(alloc, &mut rest, lines_of(change))?;
                let place = places.of_change(alloc, change)?;
                findings.push(place.note(alloc, "Change", lines.as_slice())?)?;
            }
        }
        Said::Verdict => {}
    }
    Ok(findings)
}

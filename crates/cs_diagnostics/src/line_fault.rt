//! The faults of a line of a table that can't be read.
use crate::findings::{Done, Findings, FirstFault};
use crate::front::{Front, TableKind};
use crate::line::{bad_setting, is_word_line, word_from};
use crate::places::{notes_on, places_in};
use crate::render::File;
use crate::span::Span;
use crate::told::Shown;
use cs_crontab::LineFault;
use cs_table::MAX_LINE;
use cs_table::text::{first_line, has_nul};
use std::alloc::{AllocError, Global};
use std::fmt::Display;

/// The byte order mark of UTF-8, with which some editors begin a file.
const MARK: &[u8] = b"\xef\xbb\xbf";

/// The name of a line's command.
pub const COMMAND: &str = "command";

/// A line of a table.
#[derive(Clone, Copy)]
pub struct TableLine<'a> {
    /// The kind of its table.
    pub kind: TableKind,
    /// The line, without its newline.
    pub text: &'a [u8],
    /// The line's offset in the table.
    pub start: usize,
}

impl TableLine<'_> {
    fn fault(
        self,
        findings: &mut Findings,
        span: Span,
        fault: &str,
        why: impl Display + Drop,
    ) -> Done {
        let words = format_args!("{fault}: {why}");
        findings.fault(span.behind(self.start), words)
    }

    fn find_missing(self, findings: &mut Findings, name: &str) -> Done {
        let end = Span::of(self.text.len(), 0);
        let form = match self.kind {
            TableKind::Crontab if name == COMMAND => {
                let why = "the command is missing: add it here";
                return self.fault(findings, end, LineFault::NoCommand.text(), why);
            }
            TableKind::Crontab => "five fields and a command",
            TableKind::Anacrontab => "PERIOD DELAY IDENTIFIER COMMAND",
        };
        let why = format_args!("the {name} is missing: write {form}");
        self.fault(findings, end, LineFault::MissingField.text(), why)
    }

    fn find_in(self, findings: &mut Findings, front: Front, name: &str, word: Span) -> Done {
        let mut from = word.from;
        let (has_items, mut is_first) = (matches!(front, Front::Field(_, _)), true);
        let text = word.bytes(self.text);
        for item in text.split(|byte| has_items && *byte == b',') {
            if let Some((fault, why)) = front.wrong(findings.alloc, name, item, is_first)? {
                is_first = false;
                self.fault(findings, Span::of(from, item.len()), fault, why.as_str())?;
            }
            from = from.saturating_add(item.len()).saturating_add(1);
        }
        Ok(())
    }

    fn find_in_parts(self, findings: &mut Findings) -> Done {
        let mut word = word_from(self.text, 0);
        for (front, name) in Front::all(self.kind, is_word_line(self.text)) {
            if word.is_empty() {
                return self.find_missing(findings, name);
            }
            self.find_in(findings, *front, name, word)?;
            word = word_from(self.text, word.to);
        }
        if word.is_empty() {
            return self.find_missing(findings, COMMAND);
        }
        Ok(())
    }

    /// Adds all faults of a line whose reader gives this first one.
    pub fn find_fault(self, findings: &mut Findings, fault: &FirstFault<'_>) -> Done {
        let (line, place) = (self.text, Span::of(fault.from, 1));
        if fault.name == LineFault::BadSetting.text() {
            let (span, why) = bad_setting(line);
            self.fault(findings, span, fault.name, why)?;
        } else if self.start == 0 && line.starts_with(b"{".as_slice()) {
            let why = "declarations begin so: give the tables before them";
            self.fault(findings, place, fault.name, why)?;
        } else if line.len() > MAX_LINE {
            let len = line.len();
            let why = format_args!("a line has at most 4,096 bytes, not {len}: shorten it");
            self.fault(findings, place, fault.name, why)?;
        } else if has_nul(line) {
            let why = "this byte is zero: delete it, or save the file as UTF-8";
            self.fault(findings, place, fault.name, why)?;
        } else {
            self.find_in_parts(findings)?;
        }
        if findings.is_full() {
            return Ok(());
        }
        findings.keep(fault)
    }
}

/// The offset of a crontab's text: after a byte order mark, which is a fault.
pub fn find_mark(findings: &mut Findings, bytes: &[u8]) -> Result<usize, AllocError> {
    if !bytes.starts_with(MARK) {
        return Ok(0);
    }
    let fault = LineFault::BadNumber.text();
    let why = "a byte order mark stands in front: save the file as UTF-8 without it";
    findings.fault(Span::of(0, MARK.len()), format_args!("{fault}: {why}"))?;
    Ok(MARK.len())
}

/// What [`Findings::tell`] prints of the first fault of a table; of a gathered table also where its
/// line comes from. The only error is out of memory.
pub fn table_lines(
    alloc: Global,
    file: &File<'_>,
    kind: TableKind,
    fault: &FirstFault<'_>,
) -> Result<Shown, AllocError> {
    let mut findings = Findings::new(alloc, file.bytes)?;
    let is_number = fault.name == LineFault::BadNumber.text();
    let start = findings.line_start(fault.line);
    let rest = Span::between(start, file.bytes.len()).bytes(file.bytes);
    let text = if rest.is_empty() {
        rest
    } else {
        first_line(rest).0
    };
    if fault.line == 0 {
        findings.keep(fault)?;
    } else if start > 0 || !is_number || find_mark(&mut findings, file.bytes)? == 0 {
        TableLine { kind, text, start }.find_fault(&mut findings, fault)?;
    }
    let places = places_in(alloc, file.bytes)?;
    let notes = notes_on(alloc, places.as_slice())?;
    findings.shown(file, notes.as_slice())
}

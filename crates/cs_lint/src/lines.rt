//! The lines that entries name by number, by command or by both.
use crate::declared::Declared;
use crate::parts::find_moved;
use crate::table::{Begun, Table};
use cs_crontab::When;
use cs_decl::{is_same_when, named_when};
use cs_diagnostics::{Done, Entry, Kind, Span, Words, shown};
use cs_place::place_of;
use cs_plan::{DeclFault, MAX_MINUTES};
use cs_schedule::least_gap;
use std::alloc::Global;

/// Commands are shown from their start if they differ within so many bytes.
const MAX_FRONT: usize = 40;

/// The number and the command of an entry whose line lacks this command.
fn apart<'v>(entry: &Entry<'v>, table: &Table<'_>) -> Option<(i128, &'v str)> {
    if !entry.names_lines() {
        return None;
    }
    let ((number, _), (told, _)) = (entry.object.whole("line")?, entry.object.text("command")?);
    match table.begun_on(number) {
        Some(begun) if begun.may_be(told) => None,
        _ => Some((number, told)),
    }
}

/// The entry of least number among those whose lines lack their commands; none if there is only one
/// such entry.
fn first_apart<'v>(entries: &[Entry<'v>], table: &Table<'_>) -> Option<(i128, &'v str)> {
    let (mut first, mut are_many): (Option<(i128, &'v str)>, bool) = (None, false);
    for entry in entries {
        if let Some((number, told)) = apart(entry, table) {
            let least = match first {
                Some((least, _)) => least,
                None => i128::MAX,
            };
            are_many = first.is_some();
            if number < least || !are_many {
                first = Some((number, told));
            }
        }
    }
    if are_many { first } else { None }
}

/// How many lines down the nearest line of the command is.
fn nearest_step(table: &Table<'_>, from: i128, told: &str) -> Option<i128> {
    let mut nearest: Option<i128> = None;
    for begun in table.begun.iter().rev() {
        if begun.is(told) {
            let by = i128::from(begun.number).saturating_sub(from);
            let least = match nearest {
                Some(other) => other.unsigned_abs(),
                None => u128::MAX,
            };
            if by.unsigned_abs() < least {
                nearest = Some(by);
            }
        }
    }
    nearest
}

/// Lines from a number on that have moved, and how far down.
#[derive(Clone, Copy)]
pub(crate) struct Shift {
    from: i128,
    by: i128,
}

impl Shift {
    /// The move of the first such entry to the nearest line of its command, if it explains all
    /// later entries.
    pub(crate) fn of(entries: &[Entry<'_>], table: &Table<'_>) -> Option<Shift> {
        if !table.is_whole {
            return None;
        }
        let (from, told) = first_apart(entries, table)?;
        let by = nearest_step(table, from, told)?;
        let shift = Shift { from, by };
        for entry in entries {
            match (entry.object.whole("line"), entry.object.text("command")) {
                (Some((number, _)), Some((told, _))) if number >= from && entry.names_lines() => {
                    match table.begun_on(shift.moved(number)) {
                        Some(begun) if begun.is(told) => {}
                        _ => return None,
                    }
                }
                _ => {}
            }
        }
        Some(shift)
    }

    fn moved(self, number: i128) -> i128 {
        let by = if number < self.from { 0 } else { self.by };
        number.saturating_add(by)
    }

    fn words(self, alloc: Global) -> Words {
        let (from, way) = (self.from, if self.by > 0 { "down" } else { "up" });
        let far = match self.by.unsigned_abs() {
            1 => String::from_str(alloc, "one")?,
            2 => String::from_str(alloc, "two")?,
            far => format!(in alloc; "{far}")?,
        };
        let advice = "correct each \"line\", as 'cronsafe draft --update' does";
        format!(in alloc; "lines from {from} on are {far} further {way}: {advice}")
    }
}

/// The first entry whose line has no command, or else the first whose line has another one.
fn first_to_tell<'e, 'v>(entries: &'e [Entry<'v>], table: &Table<'_>) -> Option<&'e Entry<'v>> {
    let mut first = None;
    for entry in entries {
        if let Some((number, _)) = apart(entry, table) {
            if table.begun_on(number).is_none() {
                return Some(entry);
            }
            if first.is_none() {
                first = Some(entry);
            }
        }
    }
    first
}

impl<'v> Declared<'v> {
    /// Takes the lines that entries name, and checks the names. A move of lines is reported once,
    /// at the entry that the reader would refuse.
    pub(crate) fn look_at_names(
        &mut self,
        entries: &[Entry<'v>],
        shift: Option<Shift>,
        table: &Table<'_>,
    ) -> Done {
        for entry in entries {
            if entry.names_lines() {
                self.look_at_name(entry, shift, table)?;
            }
        }
        self.tell.findings.about = Some(0);
        if let (Some(shift), Some(entry)) = (shift, first_to_tell(entries, table)) {
            let advice = shift.words(self.tell.findings.alloc)?;
            self.find_apart(entry, table, Some(advice.as_str()))?;
        }
        self.find_unbound(entries)
    }

    fn look_at_name(&mut self, entry: &Entry<'v>, shift: Option<Shift>, table: &Table<'_>) -> Done {
        let line = line_of(entry, shift, table);
        let (number, begun) = match line {
            Some((line, _)) => (u64::try_from(line).unwrap_or(0), table.begun_on(line)),
            None => (0, None),
        };
        self.tell.findings.about = Some(number);
        if let Some((line, span)) = line {
            if entry.kind == Kind::LeftOut {
                self.left_out.insert(line)?;
            }
            if !self.lines.insert(line)? {
                return self
                    .tell
                    .findings
                    .twice(entry, span, format_args!("line {line}"));
            }
        }
        if !table.is_whole {
            return Ok(());
        }
        if entry.object.whole("line").is_none() {
            self.find_nowhere(entry, table)?;
        } else if shift.is_none() || apart(entry, table).is_none() {
            self.find_apart(entry, table, None)?;
        }
        match begun {
            Some(begun) => self.look_beside(entry, begun, table),
            None => Ok(()),
        }
    }

    /// Checks an entry without a number: one line has to have its command.
    fn find_nowhere(&mut self, entry: &Entry<'v>, table: &Table<'_>) -> Done {
        let Some((told, span)) = entry.object.text("command") else {
            return Ok(());
        };
        match table.lines_of(told) {
            Some((first, last)) if first < last => {
                self.has_all_lines = false;
                if entry.object.has("when") {
                    return Ok(());
                }
                let advice = "add the \"line\" that is meant";
                let why = format_args!("lines {first} and {last} have it: {advice}");
                self.tell
                    .findings
                    .fault_of(entry, span, DeclFault::AmbiguousCommand, why)
            }
            None if table.is_read && self.tell.findings.takes_fault(span) => {
                let why = "no line has this command: correct it, or remove this entry";
                self.tell
                    .findings
                    .fault_of(entry, span, DeclFault::NoSuchLine, why)
            }
            _ => Ok(()),
        }
    }

    /// Checks that the line of the entry's number has its command.
    fn find_apart(&mut self, entry: &Entry<'v>, table: &Table<'_>, advice: Option<&str>) -> Done {
        let alloc = self.tell.findings.alloc;
        let Some((line, span)) = entry.object.whole("line") else {
            return Ok(());
        };
        match (table.begun_on(line), entry.object.text("command")) {
            (None, _) if self.tell.findings.takes_fault(span) => {
                let why = lineless_words(alloc, table, line, advice)?;
                self.tell
                    .findings
                    .fault_of(entry, span, DeclFault::NoSuchLine, why.as_str())
            }
            (Some(begun), Some((told, span))) if !begun.may_be(told) => {
                let (is, told) = (begun.name.unwrap_or(&[]), told.as_bytes());
                let from = first_apart_word(is, told);
                let dots = if from == 0 { "" } else { "... " };
                let is = shown(alloc, &is[from.min(is.len())..])?;
                let told = shown(alloc, &told[from.min(told.len())..])?;
                let advice = advice.unwrap_or("correct \"line\" or \"command\"");
                let why = format_args!("line {line} has `{dots}{is}`, not `{dots}{told}`");
                let why = format_args!("{why}: {advice}");
                self.tell
                    .findings
                    .fault_of(entry, span, DeclFault::OtherCommand, why)
            }
            _ => Ok(()),
        }
    }

    /// Checks the entry's schedule, longest time and parts against its line.
    fn look_beside(&mut self, entry: &Entry<'v>, begun: &Begun<'_>, table: &Table<'_>) -> Done {
        let may_be = match entry.object.text("command") {
            Some((told, _)) => begun.may_be(told),
            None => true,
        };
        if let (Some((told, span)), Some(when)) = (entry.object.text("when"), &begun.when) {
            let (fault, advice) = match entry.object.whole("line") {
                Some(_) => (DeclFault::OtherSchedule, "correct \"line\" or \"when\""),
                None => (DeclFault::NoSuchLine, "correct \"when\""),
            };
            match named_when(self.tell.findings.alloc, told)? {
                Some(told) if may_be && !is_same_when(&told, when) => {
                    let why = format_args!("line {} has another schedule: {advice}", begun.number);
                    self.tell.findings.fault_of(entry, span, fault, why)?;
                }
                _ => {}
            }
        }
        self.find_overlap(entry, begun)?;
        match place_of(table.beside.places, begun.number) {
            Some(place) if may_be => find_moved(&mut self.tell, entry, place),
            _ => Ok(()),
        }
    }

    /// Reports that runs may overlap, where they take no lock.
    fn find_overlap(&mut self, entry: &Entry<'v>, begun: &Begun<'_>) -> Done {
        let takes_lock = match entry.object.text("mode") {
            Some((mode, _)) => mode != "none",
            None => entry.object.has("mode"),
        };
        let (Some((max, span)), Some(When::At(schedule))) = (entry.object.whole("max"), &begun.when)
        else {
            return Ok(());
        };
        match least_gap(schedule) {
            Some(gap)
                if i128::from(gap) < max
                    && max <= i128::from(MAX_MINUTES)
                    && entry.kind == Kind::Cron
                    && !takes_lock => {
                let advice = "lower \"max\", or set \"mode\"";
                let due = format_args!("due again after {gap} minutes: {advice}");
                let words = format_args!("line {} may overlap itself, {due}", begun.number);
                self.tell.odd(span, "", words)
            }
            _ => Ok(()),
        }
    }

    /// Reports entries without a command, where others have one.
    fn find_unbound(&mut self, entries: &[Entry<'v>]) -> Done {
        let (mut first, mut number, mut is_any_bound) = (None, 0usize, false);
        for entry in entries {
            if !entry.names_lines() {
                continue;
            }
            if entry.object.has("command") {
                is_any_bound = true;
            } else if let Some((_, span)) = entry.object.whole("line") {
                first = if number == 0 { Some(span) } else { first };
                number = number.saturating_add(1);
            }
        }
        let alloc = self.tell.findings.alloc;
        let (Some(span), true) = (first, is_any_bound) else {
            return Ok(());
        };
        let more = match number {
            0 | 1 => String::new(alloc),
            _ => format!(in alloc; " and {} more", number.saturating_sub(1))?,
        };
        let advice = "add \"command\", as 'cronsafe draft' does";
        let words = format_args!("nothing binds this entry{more} to a command: {advice}");
        self.tell.odd(span, "", words)
    }
}

/// The line that an entry names, and the place of the name; none unless it is one line.
fn line_of(entry: &Entry<'_>, shift: Option<Shift>, table: &Table<'_>) -> Option<(i128, Span)> {
    if let Some((number, span)) = entry.object.whole("line") {
        let moved = match shift {
            Some(shift) => shift.moved(number),
            None => number,
        };
        return Some((moved, span));
    }
    let (told, span) = entry.object.text("command")?;
    let (first, last) = table.lines_of(told)?;
    (first == last).then_some((i128::from(first), span))
}

/// The words for a line without a command, with the advice, or with the nearest line that has one.
fn lineless_words(alloc: Global, table: &Table<'_>, line: i128, advice: Option<&str>) -> Words {
    let (mut near, mut least) = (None, u128::MAX);
    for begun in table.begun.iter() {
        let away = i128::from(begun.number).saturating_sub(line).unsigned_abs();
        if away < least {
            (near, least) = (Some(begun.number), away);
        }
    }
    let lack = format_args!("line {line} has no command");
    match (advice, near) {
        (Some(advice), _) => format!(in alloc; "{lack}: {advice}"),
        (None, Some(near)) => format!(in alloc; "{lack}: did you mean line {near}?"),
        (None, None) => format!(in alloc; "the crontab has no commands: remove this entry"),
    }
}

/// The byte at which the first different word of two commands begins; 0 if it is within
/// `MAX_FRONT`.
fn first_apart_word(is: &[u8], told: &[u8]) -> usize {
    let mut from = 0usize;
    for (at, (a, b)) in told.iter().zip(is.iter()).enumerate() {
        if *a != *b {
            return if at > MAX_FRONT { from } else { 0 };
        }
        if *a == b' ' {
            from = at.saturating_add(1);
        }
    }
    if told.len().min(is.len()) > MAX_FRONT {
        from
    } else {
        0
    }
}

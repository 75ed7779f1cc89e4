//! The check of a crontab or an anacrontab, line by line.
use crate::changes::Change;
use crate::clock::find_changes;
use crate::declared::Declared;
use crate::odd_lines::{Oddity, odd_command, odd_end, odd_fields, odd_setting};
use crate::planned::{Held, may_take};
use crate::wanted::{Wanted, has_name};
use cs_anacrontab::{Entry as JobEntry, JobFault, MAX_JOBS, read_line as read_job_line};
use cs_civil::all_kinds;
use cs_crontab::{Entry, LineFault, MAX_COMMANDS, Schedule, When, read_line};
use cs_diagnostics::{
    COMMAND, Done, Findings, FirstFault, Span, TableKind, TableLine, find_mark, is_word_line,
    shown, word_after, word_from, words,
};
use cs_explain::odd_name;
use cs_place::Place;
use cs_plan::DeclFault;
use cs_schedule::Part;
use cs_table::MAX_TABLE;
use cs_table::text::is_among;
use indexmap::IndexMap;
use std::alloc::{AllocError, Global};
use std::fmt::Display;

/// What is known of a crontab besides its bytes.
#[derive(Clone, Copy)]
pub(crate) struct Beside<'a> {
    /// The places of its lines, if it was gathered.
    pub(crate) places: &'a [Place],
    /// The number of the first line whose command seems to follow a user.
    pub(crate) user: Option<u32>,
    /// The commands of its plan, if there is one.
    pub(crate) commands: &'a [Held],
    /// The next changes of the zone's clocks; none without `--zone`.
    pub(crate) changes: &'a [Change],
}

/// A line that begins as a command or a job does.
#[derive(Drop)]
pub(crate) struct Begun<'a> {
    pub(crate) number: u32,
    /// The place of its first word, or of a job's identifier.
    place: Span,
    /// None for a job, and where it can't be read.
    pub(crate) when: Option<When>,
    /// Its command or identifier; none where it can't be read.
    pub(crate) name: Option<&'a [u8]>,
}

impl<'a> Begun<'a> {
    pub(crate) fn is(&self, command: &str) -> bool {
        self.name == Some(command.as_bytes())
    }

    /// The same, or it can't be read.
    pub(crate) fn may_be(&self, command: &str) -> bool {
        self.name.is_none() || self.is(command)
    }
}

#[derive(Drop)]
pub(crate) struct Table<'a> {
    pub(crate) findings: Findings,
    /// Findings where clocks change, printed last.
    pub(crate) clock: Findings,
    wanted: Wanted<'a>,
    kind: TableKind,
    pub(crate) beside: Beside<'a>,
    /// The current line, its number, and its offset in the table's bytes.
    line: &'a [u8],
    number: u32,
    start: usize,
    /// The names after `# cronsafe: except` on the line above, which aren't odd in this line.
    except: &'a str,
    pub(crate) begun: Vec<Begun<'a>>,
    /// Commands or identifiers, each with the numbers of its first and last line.
    names: IndexMap<&'a [u8], (u32, u32)>,
    /// Lines of commands without leading blanks since the last setting, each with its first number.
    same: IndexMap<&'a [u8], u32>,
    last_setting: u32,
    /// Whether it is neither too long nor has too many commands or jobs.
    pub(crate) is_whole: bool,
    /// Whether each of its lines can be read.
    pub(crate) is_read: bool,
}

impl<'a> Table<'a> {
    /// Checks a table; `beside` is what is known of it.
    pub(crate) fn at(
        alloc: Global,
        bytes: &'a [u8],
        kind: TableKind,
        wanted: Wanted<'a>,
        beside: Beside<'a>,
    ) -> Result<Self, AllocError> {
        let clocked = if beside.changes.is_empty() {
            &[]
        } else {
            bytes
        };
        let mut table = Table {
            findings: Findings::new(alloc, bytes)?,
            clock: Findings::new(alloc, clocked)?,
            wanted,
            kind,
            beside,
            line: bytes,
            number: 0,
            start: 0,
            except: "",
            begun: Vec::new(alloc),
            names: IndexMap::new(alloc),
            same: IndexMap::new(alloc),
            last_setting: 0,
            is_whole: bytes.len() <= MAX_TABLE,
            is_read: true,
        };
        table.look_at_all(bytes)?;
        Ok(table)
    }

    fn look_at_all(&mut self, bytes: &'a [u8]) -> Done {
        if !self.is_whole {
            let why = "a table has at most 1,048,576 bytes: remove what begins here";
            return self.fault(Span::of(MAX_TABLE, 1), LineFault::TooLong.text(), why);
        }
        let mut text = bytes;
        if matches!(self.kind, TableKind::Crontab) {
            self.start = find_mark(&mut self.findings, bytes)?;
            self.is_read = self.start == 0;
            text = Span::between(self.start, bytes.len()).bytes(bytes);
        }
        for line in text.split(|byte| *byte == b'\n') {
            self.line = line;
            self.number = self.number.saturating_add(1);
            match self.kind {
                TableKind::Crontab => {
                    self.look_at_line()?;
                    self.keep_exceptions()?;
                }
                TableKind::Anacrontab => self.look_at_job_line()?,
            }
            self.find_too_many()?;
            self.start = self.start.saturating_add(line.len()).saturating_add(1);
        }
        let (wanted, end) = (self.wanted, Span::of(bytes.len(), 0));
        match self.kind {
            TableKind::Crontab if !bytes.is_empty() && !bytes.ends_with(b"\n".as_slice()) => {
                let why = "Debian's cron takes no table without a newline at its end: add one";
                wanted.odd(&mut self.findings, end, "NoNewline", why)
            }
            _ => Ok(()),
        }
    }

    /// The command that begins on that line.
    pub(crate) fn begun_on(&self, number: i128) -> Option<&Begun<'a>> {
        let before = |begun: &Begun<'_>| i128::from(begun.number) < number;
        let begun = self.begun.get(self.begun.partition_point(before))?;
        (i128::from(begun.number) == number).then_some(begun)
    }

    /// The first and the last line of that command or identifier.
    pub(crate) fn lines_of(&self, name: &str) -> Option<(u32, u32)> {
        self.names.get(name.as_bytes()).copied()
    }

    fn fault(&mut self, span: Span, fault: &str, why: impl Display + Drop) -> Done {
        let words = format_args!("{fault}: {why}");
        self.findings.fault(span.behind(self.start), words)
    }

    fn odd(&mut self, span: Span, name: &str, why: impl Display + Drop) -> Done {
        let wanted = self.wanted;
        if !name.is_empty() && has_name(self.except, name) {
            return Ok(());
        }
        wanted.odd(&mut self.findings, span.behind(self.start), name, why)
    }

    fn find_odd(&mut self, oddities: &[Oddity]) -> Done {
        for (is_so, place, name, why) in oddities {
            if *is_so {
                self.odd(*place, name, why)?;
            }
        }
        Ok(())
    }

    fn begin(&mut self, word: Span, when: Option<When>, name: Option<&'a [u8]>) -> Done {
        self.begun.push(Begun {
            number: self.number,
            place: word.behind(self.start),
            when,
            name,
        })?;
        Ok(())
    }

    fn find_too_many(&mut self) -> Done {
        let (most, fault, what) = match self.kind {
            TableKind::Crontab => (MAX_COMMANDS, LineFault::TooManyJobs.text(), COMMAND),
            TableKind::Anacrontab => (MAX_JOBS, JobFault::TooManyJobs.text(), "job"),
        };
        let number = self.begun.len();
        if number <= most || !self.is_whole {
            return Ok(());
        }
        self.is_whole = false;
        let why = format_args!(
            "this is {what} {number} of at most {most}: join some in one script"
        );
        self.fault(word_from(self.line, 0), fault, why)
    }

    /// Adds all faults of a line whose reader gives this first one.
    fn look_at_bad(&mut self, fault: &FirstFault<'_>) -> Done {
        if fault.name != LineFault::BadSetting.text() {
            self.is_read = false;
            self.begin(word_from(self.line, 0), None, None)?;
        }
        let line = TableLine {
            kind: self.kind,
            text: self.line,
            start: self.start,
        };
        line.find_fault(&mut self.findings, fault)
    }

    fn look_at_line(&mut self) -> Done {
        let (line, number) = (self.line, self.number);
        match read_line(line) {
            Ok(Entry::Nothing) => Ok(()),
            Ok(Entry::Setting(name, value)) => {
                self.last_setting = number;
                self.find_unheeded(name)?;
                self.find_odd(odd_setting(line, name, value).as_slice())?;
                self.find_odd(odd_end(line).as_slice())
            }
            Ok(Entry::Command(when, command)) => self.look_at_command(when, command),
            Err(wrong) => {
                let mark = if number == 1 { self.start } else { 0 };
                let column = (line.len() - wrong.left + 1).saturating_add(mark);
                let fault = wrong.fault;
                let is_setting = fault == LineFault::BadSetting;
                let fault = FirstFault::of(number, column, wrong.length, is_setting, fault.text());
                self.look_at_bad(&fault)
            }
        }
    }

    /// Keeps the names of a comment `# cronsafe: except NAMES` for the next line, and reports
    /// unknown ones.
    fn keep_exceptions(&mut self) -> Done {
        let line = self.line;
        self.except = "";
        if !is_among(&[EXCEPT], words(line, 0, 2).bytes(line)) {
            return Ok(());
        }
        let names = word_after(line, 3);
        let (mut from, text) = (names.from, str::from_utf8(names.bytes(line)).unwrap_or(""));
        for name in text.split(',') {
            if odd_name(name).is_none() {
                self.odd(Span::of(from, name.len()), "", NO_NAME)?;
            }
            from = from.saturating_add(name.len()).saturating_add(1);
        }
        self.except = text;
        Ok(())
    }

    fn look_at_command(&mut self, when: When, command: &'a [u8]) -> Done {
        let (line, number) = (self.line, self.number);
        if let When::At(schedule) = &when {
            self.find_never_due(schedule)?;
        }
        self.find_same()?;
        self.look_beside(&when, command)?;
        let lines = self.names.get(&command).copied();
        let (first, _) = lines.unwrap_or((number, number));
        self.names.insert(command, (first, number))?;
        self.begin(word_from(line, 0), Some(when), Some(command))
    }

    /// Adds what is odd about a command by itself and in what is known of the table.
    fn look_beside(&mut self, when: &When, command: &[u8]) -> Done {
        let (line, number, beside, wanted) = (self.line, self.number, self.beside, self.wanted);
        let place = word_from(line, line.len().saturating_sub(command.len()));
        if beside.user == Some(number) {
            let user = shown(self.findings.alloc, place.bytes(line))?;
            let what = "reads as the user in a line of a system table (/etc/crontab, /etc/cron.d)";
            let why = "'cronsafe gather --system FILE' makes a user's table of one";
            self.odd(place, "", format_args!("`{user}` {what}: {why}"))?;
        }
        self.find_odd(odd_fields(line).as_slice())?;
        self.find_odd(odd_command(line, command).as_slice())?;
        self.find_odd(odd_end(line).as_slice())?;
        self.find_planned(beside.commands, place.behind(self.start))?;
        match when {
            When::At(schedule) => {
                let last = if is_word_line(line) { 0 } else { 1 };
                let place = words(line, 0, last).behind(self.start);
                find_changes(&mut self.clock, &wanted, beside.changes, place, schedule)
            }
            When::Reboot if may_take(self.findings.alloc, beside.commands, command)? => {
                self.odd(place, "RebootLock", REBOOT_LOCK)
            }
            When::Reboot => Ok(()),
        }
    }

    fn find_planned(&mut self, commands: &[Held], place: Span) -> Done {
        let (number, wanted) = (self.number, self.wanted);
        for held in commands {
            if held.number == number {
                held.find_odd(&mut self.findings, &wanted, place, commands)?;
            }
        }
        Ok(())
    }

    /// Reports a line that is the same as one above, unless a setting between them may change it.
    /// Gathered tables have other users' lines, which may be the same.
    fn find_same(&mut self) -> Done {
        let line = self.line;
        let place = Span::between(word_from(line, 0).from, line.len());
        let text = place.bytes(line);
        let first = self.same.get(&text).copied().unwrap_or(0);
        if first <= self.last_setting {
            self.same.insert(text, self.number)?;
            return Ok(());
        }
        if !self.beside.places.is_empty() {
            return Ok(());
        }
        let why = format_args!("line {first} says the same, so it runs twice: remove one");
        self.odd(place, "SameLine", why)
    }

    fn find_never_due(&mut self, schedule: &Schedule) -> Done {
        if !self.is_whole {
            return Ok(());
        }
        let Some(longest) = longest_if_never_due(schedule) else {
            return Ok(());
        };
        let mut first = 0u8;
        for day in 1..32u8 {
            if first == 0 && schedule.field(Part::Dom).has(day) {
                first = day;
            }
        }
        let place = Span::between(word_after(self.line, 2).from, word_after(self.line, 3).to);
        let longest = format_args!("its longest month has {longest} days: change either");
        let words = format_args!("never due: its first day is {first}, but {longest}");
        self.odd(place, "", words)
    }

    /// Reports a setting without effect that other daemons heed (`crontab(5)`, `anacrontab(5)`).
    fn find_unheeded(&mut self, name: &[u8]) -> Done {
        let why = match str::from_utf8(name).unwrap_or("") {
            "CRON_TZ" => {
                "Debian's cron ignores it, so remove it; cronie's follows it, but a \"zone\" in \
                 the declarations is for all tables"
            }
            "RANDOM_DELAY" => "remove it, since no start is delayed at random",
            "START_HOURS_RANGE" => {
                "set \"hours\" in the declarations if anacron keeps to it: Debian's doesn't know it"
            }
            _ => return Ok(()),
        };
        let name = shown(self.findings.alloc, name)?;
        let place = Span::between(word_from(self.line, 0).from, self.line.len());
        self.odd(place, "", format_args!("{name} has no effect: {why}"))
    }

    /// Checks a line of an anacrontab; of a continued one also the text before the backslash.
    fn look_at_job_line(&mut self) -> Done {
        match read_job_line(self.line) {
            Err(wrong) if wrong.fault == JobFault::Continued => {
                let last = Span::of(self.line.len().saturating_sub(wrong.left), 1);
                let why = "continued lines aren't read: write it all on one line";
                self.fault(last, wrong.fault.text(), why)?;
                self.line = without_backslashes(self.line);
            }
            _ => {}
        }
        let line = self.line;
        match read_job_line(line) {
            Ok(JobEntry::Nothing) => Ok(()),
            Ok(JobEntry::Setting(name, _)) => self.find_unheeded(name),
            Ok(JobEntry::Job(_, _, name, _)) => {
                let (span, number) = (word_after(line, 2), self.number);
                if let Some((first, _)) = self.names.get(&name).copied() {
                    let why = format_args!("line {first} has this identifier: choose another one");
                    self.fault(span, JobFault::TwiceNamed.text(), why)?;
                } else {
                    self.names.insert(name, (number, number))?;
                }
                self.begin(span, None, Some(name))
            }
            Err(wrong) => {
                let (column, fault) = (line.len() - wrong.left + 1, wrong.fault);
                let is_setting = fault == JobFault::BadSetting;
                let fault = FirstFault::of(
                    self.number,
                    column,
                    wrong.length,
                    is_setting,
                    fault.text(),
                );
                self.look_at_bad(&fault)
            }
        }
    }

    /// Reports commands and jobs that have no entry, or can't be in a plan.
    pub(crate) fn find_beside(&mut self, declared: &Declared<'_>) -> Done {
        for begun in self.begun.iter() {
            let (number, line) = (begun.number, i128::from(begun.number));
            let is_kept = declared.has_all_left_out && !declared.left_out.contains(&line);
            let is_lacking = declared.has_all_lines && !declared.lines.contains(&line);
            let has_all_jobs = declared.has_all_identifiers;
            let (fault, why) = match (&begun.when, begun.name) {
                (None, Some(name)) if has_all_jobs && !declared.identifiers.contains(name) => {
                    let (fault, name) = (DeclFault::Undeclared, shown(self.findings.alloc, name)?);
                    let why = "\"anacron\" has no entry for this job: add one";
                    let words = format_args!("{fault} at job {name}: {why}");
                    self.findings.fault(begun.place, words)?;
                    continue;
                }
                (Some(When::Reboot), _) if is_kept => {
                    let why = "put it into \"left_out\": outages would start it without bound";
                    (DeclFault::RebootLine, why)
                }
                (Some(When::At(_)), _) if is_lacking => {
                    let why = "\"cron\" has no entry for this line: add one";
                    (DeclFault::Undeclared, why)
                }
                _ => continue,
            };
            let words = format_args!("{fault} at line {number}: {why}");
            self.findings.fault(begun.place, words)?;
        }
        Ok(())
    }
}

/// The days of the longest month of a schedule that is never due; none if it is due.
fn longest_if_never_due(schedule: &Schedule) -> Option<u8> {
    let mut longest = 0u8;
    for kind in all_kinds() {
        if schedule.is_day_due(kind) {
            return None;
        }
        if schedule.field(Part::Month).has(kind.month()) {
            longest = longest.max(kind.dom());
        }
    }
    Some(longest)
}

fn without_backslashes(line: &[u8]) -> &[u8] {
    let mut end = 0usize;
    for (at, byte) in line.iter().enumerate() {
        if *byte != b'\\' {
            end = at.saturating_add(1);
        }
    }
    Span::of(0, end).bytes(line)
}

/// Begins a comment with names of oddities that the next line may have.
const EXCEPT: &[u8] = b"# cronsafe: except";

const NO_NAME: &str = "nothing odd has this name: 'cronsafe explain' lists all names";

const REBOOT_LOCK: &str =
    "the plan doesn't count with this run, which may take a group's lock: use another lock file";

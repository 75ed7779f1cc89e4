//! What a daemon's log says besides the events of its runs, and the file of its state.
use cs_args::version_text;
use cs_civil::{Minute, date_text};
use cs_crontab::Line;
use cs_daemon::Cause;
use cs_machine::{ClockBack, JobNote, Remarks, RunLog, Setup, Tally, ToldFile};
use cs_owner::Owner;
use cs_plan::{ClockNames, Plan};
use cs_ruling::Order;
use cs_table::Setting;
use cs_zone::Zone;
use std::alloc::{AllocError, Global};
use std::io;
use std::io::Write;
use std::rt::{Clock, Files};
use std::sync::{Mutex, Wait};

/// Writes to a log that others write to as well, with what runners have left for it, and keeps the
/// file of the daemon's state.
#[derive(Drop)]
pub(crate) struct Hand<'a, 'r, R, W> {
    rt: &'a R,
    pub(crate) log: &'a Mutex<RunLog<'r, R, W>>,
    file: &'a ToldFile<'a>,
    remarks: &'a Remarks,
}

impl<'a, 'r, R, W> Hand<'a, 'r, R, W> {
    pub(crate) fn new(
        rt: &'a R,
        log: &'a Mutex<RunLog<'r, R, W>>,
        file: &'a ToldFile<'a>,
        remarks: &'a Remarks,
    ) -> Hand<'a, 'r, R, W> {
        Hand {
            rt,
            log,
            file,
            remarks,
        }
    }
}

impl<'a, 'r, R: Clock + Wait, W: Write> Hand<'a, 'r, R, W> {
    /// Writes a line of its own, given without its newline, if the log has times. What it doesn't
    /// take is lost.
    pub(crate) fn note(&mut self, line: &[u8]) {
        let _ = self.log.lock(self.rt).note(line);
    }

    /// Writes a line, in these two parts, also if the log has no times.
    pub(crate) fn tell(&mut self, alloc: Global, front: &[u8], words: &[u8]) {
        if let Ok(line) = joined(alloc, &[front, words, b"\n"]) {
            let _ = self.log.lock(self.rt).write(line.as_slice());
        }
    }

    pub(crate) fn note_remarks(&mut self) {
        for remark in self.remarks.take(self.rt) {
            let _ = self.log.lock(self.rt).note_left(remark.as_slice());
        }
    }

    /// Notes the lines that aren't empty.
    pub(crate) fn note_lines(&mut self, text: &[u8]) {
        for line in text.split(|byte| *byte == b'\n') {
            if !line.is_empty() {
                self.note(line);
            }
        }
    }

    /// Empty if memory runs out.
    pub(crate) fn awaited(&self, alloc: Global, drains: bool) -> Vec<u8> {
        let log = self.log.lock(self.rt);
        let text = if drains { log.drained() } else { log.awaited() };
        match text {
            Ok(text) => text,
            Err(AllocError) => Vec::new(alloc),
        }
    }

    pub(crate) fn tally(&self) -> Tally {
        self.log.lock(self.rt).tally()
    }

    pub(crate) fn miss(&mut self, latest: Minute, now: Minute) {
        self.log.lock(self.rt).miss(latest, now);
    }

    /// Notes that the daemon starts nothing more, and why. From then on nobody asks for its state.
    pub(crate) fn note_end(&mut self, why: &[u8]) {
        let _ = self.log.lock(self.rt).note_end(why);
    }
}

impl<'a, 'r, R: Clock + Files + Wait, W: Write> Hand<'a, 'r, R, W> {
    /// Writes the file of the daemon's state, if it is due. The log is free meanwhile, so that no
    /// job waits for the disk of this file. A write that fails is ignored: the next is due in a
    /// minute.
    pub(crate) fn keep_state(&mut self) {
        let text = self.log.lock(self.rt).state_if_due();
        if let Some(text) = text {
            let _ = self.file.replace(self.rt, text.as_slice());
        }
    }
}

impl<'a, 'r, R: Clock + Wait + Sync, W: Write + Send> Write for Hand<'a, 'r, R, W> {
    fn write(&mut self, line: &[u8]) -> io::Result<usize> {
        // first why, as the line may report that a run isn't started
        self.note_remarks();
        self.log.lock(self.rt).write(line)
    }

    fn flush(&mut self) -> io::Result<()> {
        self.log.lock(self.rt).flush()
    }
}

/// The program's version, as `1.2.3`.
fn version() -> &'static str {
    let text = version_text();
    text.strip_prefix("cronsafe ").unwrap_or(text).trim_end()
}

pub(crate) fn setup_of<'a>(order: &Order<'a>, jobs: &'a [JobNote]) -> Setup<'a> {
    let words = &order.words;
    let files = &words.check;
    Setup {
        version: version(),
        table: files.table,
        declarations: files.declarations,
        certificate: files.certificate,
        digest: order.digests.certificate,
        anacrontab: files.anacrontab,
        output: words.output,
        capacity: u64::from(order.checked.plan().capacity()),
        offset: order.checked.plan().offset(),
        jobs,
        has_hooks: words.on_overrun.is_some()
            || words.on_failure.is_some()
            || words.on_limit.is_some()
            || words.on_success.is_some()
            || words.on_recovered.is_some()
            || words.mail.is_some(),
        has_limits: words.enforce,
    }
}

fn joined(alloc: Global, texts: &[&[u8]]) -> Result<Vec<u8>, AllocError> {
    let mut line = Vec::new(alloc);
    for text in texts {
        line.extend_from_slice(*text)?;
    }
    Ok(line)
}

/// The first line of a log.
fn opening(alloc: Global, order: &Order<'_>) -> io::Result<Vec<u8>> {
    let mut line = Vec::new(alloc);
    let words = &order.words;
    let files = &words.check;
    write!(
        line,
        "running {} with {} and {}",
        files.table, files.declarations, files.certificate
    )?;
    if let Some(path) = files.anacrontab {
        write!(line, " and {path}")?;
    }
    let capacity = order.checked.plan().capacity();
    write!(line, ", stamps in {}, capacity {capacity}", words.stamps)?;
    if let Some(folder) = words.output {
        write!(line, ", output in {folder}")?;
    }
    Ok(line)
}

fn digest_line(alloc: Global, file: &str, digest: &[u8]) -> Result<Vec<u8>, AllocError> {
    let digits = hex::encode(alloc, digest)?;
    let (file, digits) = (file.as_bytes(), digits.as_bytes());
    joined(alloc, &[file, b" sha256 ", digits])
}

/// That `MAILTO`, by which cron would mail the output of jobs, has no effect.
fn mail_line(alloc: Global, setting: &Setting, table: &str) -> Result<Vec<u8>, AllocError> {
    let number = setting.number().to_string(alloc)?;
    let (number, table) = (number.as_bytes(), table.as_bytes());
    let front = b"MAILTO on line ".as_slice();
    joined(
        alloc,
        &[front, number, b" of the ", table, b" has no effect"],
    )
}

/// That runs are named by the plan's clock, and what the zone's other clock is beside it.
fn clock_line(alloc: Global, clocks: &ClockNames, zone: &Zone) -> Result<Vec<u8>, AllocError> {
    let minutes = zone.saving().to_string(alloc)?;
    let side = if zone.is_ahead() {
        b" minutes ahead of it".as_slice()
    } else {
        b" minutes behind it".as_slice()
    };
    let (plan, other) = (clocks.plan.as_slice(), clocks.other.as_slice());
    let (front, minutes) = (b"runs are named by ".as_slice(), minutes.as_bytes());
    joined(
        alloc,
        &[front, plan, b" all year; ", other, b" is ", minutes, side],
    )
}

/// Of a line of the crontab: `front`, its number and this text.
fn line_note(alloc: Global, front: &[u8], line: &Line, text: &[u8]) -> Result<Vec<u8>, AllocError> {
    let number = line.number().to_string(alloc)?;
    joined(alloc, &[front, number.as_bytes(), b": ", text])
}

impl<'a, 'r, R: Clock + Wait, W: Write> Hand<'a, 'r, R, W> {
    /// Notes a line, if there was memory for it.
    fn note_made(&mut self, line: Result<Vec<u8>, AllocError>) {
        if let Ok(line) = line {
            self.note(line.as_slice());
        }
    }

    pub(crate) fn note_first(&mut self, alloc: Global, first: Option<Minute>) {
        if let Some(first) = first {
            self.note_made(first_line(alloc, first));
        }
    }

    /// Nothing without summer time.
    fn note_clock(&mut self, alloc: Global, plan: &Plan) {
        let zone = plan.zone();
        if zone.saving() == 0 {
            return;
        }
        if let Some(clocks) = plan.clocks() {
            self.note_made(clock_line(alloc, clocks, zone));
        }
    }

    /// Of the settings after this line. Returns the line of the last one, if there is one.
    fn note_mail(&mut self, alloc: Global, settings: &[Setting], table: &str, after: u32) -> u32 {
        let mut last = after;
        for setting in settings {
            let is_mail = setting.name() == b"MAILTO".as_slice() && !setting.value().is_empty();
            if is_mail && setting.number() > last {
                last = setting.number();
                self.note_made(mail_line(alloc, setting, table));
            }
        }
        last
    }

    /// The settings of a gathered table stand in its comments, and each command has all above it.
    fn note_owned_mail(&mut self, alloc: Global, owners: &[Owner]) {
        let mut last = 0;
        for owner in owners {
            last = self.note_mail(alloc, owner.settings.as_slice(), "crontab", last);
        }
    }

    /// The crontab's jobs come first, in the order of its lines.
    fn note_jobs(&mut self, alloc: Global, lines: &[Line], jobs: &[JobNote]) {
        for (line, job) in lines.iter().zip(jobs) {
            self.note_made(line_note(alloc, b"job line ", line, line.command()));
            self.note_made(line_note(alloc, b"called line ", line, job.name.as_slice()));
        }
    }

    /// Notes what a daemon begins with: its files and their digests, the clock by which runs are
    /// named, the settings that have no effect, and the commands and names of its crontab, from
    /// which readers of the log know what its runs are.
    pub(crate) fn note_opening(&mut self, alloc: Global, order: &Order<'_>, jobs: &[JobNote]) {
        if let Ok(line) = opening(alloc, order) {
            self.note(line.as_slice());
        }
        let digests = &order.digests;
        self.note_made(digest_line(alloc, "table", &digests.table));
        self.note_made(digest_line(alloc, "declarations", &digests.declarations));
        self.note_made(digest_line(alloc, "certificate", &digests.certificate));
        let plan = order.checked.plan();
        self.note_clock(alloc, plan);
        self.note_mail(alloc, plan.crontab().settings(), "crontab", 0);
        self.note_owned_mail(alloc, order.owners.as_slice());
        self.note_mail(alloc, plan.anacrontab().settings(), "anacrontab", 0);
        self.note_jobs(alloc, plan.crontab().lines(), jobs);
    }
}

/// The last line of a log: why its daemon has ended.
pub(crate) fn closing(cause: Cause) -> &'static [u8] {
    let line = match cause {
        Cause::Stopped => "stopped",
        Cause::LastMinute => "ended, for the last minute of 9999 has come",
        Cause::ClockBack => "ended, for the clock went back, or is before 1970-01-04",
        Cause::ClockFailed => "ended, for the clock can't be read",
        Cause::HistoryFull => "ended, for the history is full",
        Cause::NoMemory => "ended, for memory ran out",
    };
    line.as_bytes()
}

pub(crate) fn first_line(alloc: Global, first: Minute) -> Result<Vec<u8>, AllocError> {
    let first = date_text(first);
    let (front, behind) = (
        b"begins in ".as_slice(),
        b" and starts nothing due in it".as_slice(),
    );
    joined(alloc, &[front, &first, behind])
}

/// That the minutes after the one and up to the other belong to no plan.
pub(crate) fn gap_line(alloc: Global, latest: Minute, now: Minute) -> Result<Vec<u8>, AllocError> {
    let (latest, now) = (date_text(latest), date_text(now));
    let front = b"no plan after ".as_slice();
    joined(alloc, &[front, &latest, b" up to ", &now])
}

/// That the machine's clock went back, and what comes of it.
pub(crate) fn back_line(alloc: Global, back: ClockBack) -> io::Result<Vec<u8>> {
    let mut line = Vec::new(alloc);
    line.write_all(b"clock back to ")?;
    line.write_all(&date_text(back.shown))?;
    line.write_all(if back.is_waited_for {
        b", waiting until it has passed ".as_slice()
    } else {
        b", ending, for it had shown ".as_slice()
    })?;
    line.write_all(&date_text(back.latest))?;
    Ok(line)
}

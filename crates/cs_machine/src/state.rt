use crate::counts::Counts;
use crate::missed::missed_by;
use crate::records::{JobRecord, new_records, note_record};
use crate::setup::JobNote;
use crate::starts::{is_last_of, note_run};
use cs_civil::Bytes;
use cs_place::push_shown;
use std::alloc::{AllocError, Global};

/// What a daemon does, as the lines of its log report it. A run for whose name there is no memory
/// isn't noted.
#[derive(Drop)]
pub(crate) struct State {
    alloc: Global,
    /// In seconds since 1970-01-01 00:00 UTC, as all moments here.
    pub(crate) since: Option<u64>,
    /// The runs that go on, each with the second of its start.
    pub(crate) starts: Vec<(Bytes, u64)>,
    /// Of these, those that have passed their declared time.
    pub(crate) late: Vec<Bytes>,
    pub(crate) waiting: Vec<Bytes>,
    /// Those of earlier daemons that are waited for, each with its process.
    pub(crate) left: Vec<Bytes>,
    pub(crate) counts: Counts,
    /// How many runs of the crontab were missed, at most 2^64 - 1.
    pub(crate) missed: u64,
    /// The jobs whose stamps couldn't be written; after the request to stop, since then.
    unwritten: Vec<Bytes>,
    /// When a stamp last couldn't be written.
    pub(crate) stamp_fault_at: Option<u64>,
    /// In the order of the jobs.
    pub(crate) records: Vec<JobRecord>,
    /// Whether the files that were accepted last are run, not those that are there.
    pub(crate) has_last_accepted: bool,
    pub(crate) is_stopping: bool,
    /// Whether a line came since the state was last written.
    has_changed: bool,
    written_at: Option<u64>,
}

/// What the daemon notes where it runs those.
pub(crate) const LAST_ACCEPTED: &[u8] = b"the files that were accepted last are run";

/// After so many seconds the state is written anyway.
const SECONDS: u64 = 60;

fn ends_wait(words: &[u8], name: &[u8]) -> bool {
    let told = words
        .strip_prefix(b"started ")
        .or(words.strip_prefix(b"skipped "));
    match told {
        Some(told) => told == name,
        None => words.starts_with(b"outage "),
    }
}

fn has_name(names: &[Bytes], name: &[u8]) -> bool {
    for other in names {
        if other.as_slice() == name {
            return true;
        }
    }
    false
}

/// `left` has a process after the name.
fn is_run_of(left: &[u8], name: &[u8]) -> bool {
    match left.strip_prefix(name) {
        Some(behind) => behind.starts_with(b", process "),
        None => false,
    }
}

/// If memory runs out, the name is lost.
fn add(alloc: Global, names: &mut Vec<Bytes>, name: &[u8]) {
    if let Ok(name) = Bytes::from_slice(alloc, name) {
        let _ = names.push(name);
    }
}

impl State {
    pub(crate) fn new(alloc: Global, at: Option<u64>, jobs: &[JobNote]) -> State {
        State {
            alloc,
            since: at,
            starts: Vec::new(alloc),
            late: Vec::new(alloc),
            waiting: Vec::new(alloc),
            left: Vec::new(alloc),
            counts: Counts::NONE,
            missed: 0,
            unwritten: Vec::new(alloc),
            stamp_fault_at: None,
            records: new_records(alloc, jobs),
            has_last_accepted: false,
            is_stopping: false,
            has_changed: true,
            written_at: None,
        }
    }

    /// Returns how many seconds a run took, if the line reports its end.
    pub(crate) fn take(&mut self, words: &[u8], at: Option<u64>, jobs: &[JobNote]) -> Option<u64> {
        self.has_changed = true;
        match words.strip_prefix(b"waiting ") {
            Some(name) => add(self.alloc, &mut self.waiting, name),
            None => (self.waiting).retain(|name| !ends_wait(words, name.as_slice())),
        }
        match words.strip_prefix(b"overrun ") {
            Some(name) => add(self.alloc, &mut self.late, name),
            None => self.late.retain(|name| !is_last_of(words, name.as_slice())),
        }
        self.take_left(words);
        self.counts = self.counts.with(words);
        self.missed = self.missed.saturating_add(missed_by(words, jobs));
        if let Some(job) = words.strip_prefix(b"stamp not written ") {
            self.stamp_fault_at = at;
            self.add_unwritten(job);
        }
        self.has_last_accepted |= words == LAST_ACCEPTED;
        let span = note_run(self.alloc, &mut self.starts, words, at);
        let records = self.records.as_mut_slice();
        note_record(self.alloc, records, jobs, words, at, span);
        span
    }

    fn take_left(&mut self, words: &[u8]) {
        if let Some(left) = words.strip_prefix(b"still running ") {
            add(self.alloc, &mut self.left, left);
        }
        if let Some(name) = words.strip_prefix(b"no longer running ") {
            self.left.retain(|left| !is_run_of(left.as_slice(), name));
        }
    }

    /// The runs that wait are dropped.
    pub(crate) fn stop(&mut self) {
        self.has_changed = true;
        self.is_stopping = true;
        self.waiting.clear();
        self.unwritten.clear();
    }

    pub(crate) fn is_late(&self, name: &[u8]) -> bool {
        has_name(self.late.as_slice(), name)
    }

    fn add_unwritten(&mut self, job: &[u8]) {
        if !has_name(self.unwritten.as_slice(), job) {
            add(self.alloc, &mut self.unwritten, job);
        }
    }

    /// For the lock, at the daemon's end.
    pub(crate) fn last_word(&self) -> Result<Vec<u8>, AllocError> {
        let mut text = Vec::new(self.alloc);
        let mut front = b"stamps not written: ".as_slice();
        for job in self.unwritten.as_slice() {
            text.extend_from_slice(front)?;
            push_shown(&mut text, job.as_slice())?;
            front = b", ".as_slice();
        }
        if text.is_empty() {
            text.extend_from_slice(b"all stamps are written")?;
        }
        Ok(text)
    }

    /// True if, since the last time, a line came, a minute passed, or the clock was put back. From
    /// then on the state counts as written.
    pub(crate) fn is_due(&mut self, at: u64) -> bool {
        let is_past = match self.written_at {
            Some(before) => at < before || at - before >= SECONDS,
            None => true,
        };
        if !self.has_changed && !is_past {
            return false;
        }
        self.has_changed = false;
        self.written_at = Some(at);
        true
    }
}

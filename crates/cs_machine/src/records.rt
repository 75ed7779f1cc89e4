//! What a daemon knows of each of its jobs: its last runs, and when it is due next.
ghost use Rattle.std.specs.Prelude.{◌≡◌, ◌<◌, IfSome, length};

use crate::hook_call::ended_run;
use crate::next_due::{QuietTime, next_due};
use crate::run_log::RunLog;
use crate::setup::{JobNote, note_of};
use cs_civil::{Bytes, Minute};
use std::alloc::{AllocError, Global};
use std::mem;

/// What a daemon knows of one of its jobs.
#[derive(Drop)]
pub struct JobRecord {
    command: Bytes,
    /// Whether it is a job of the crontab.
    has_line: bool,
    /// The name of the run that began last.
    pub(crate) run: Option<Bytes>,
    /// When that began, in seconds since 1970-01-01 00:00 UTC, as all moments here.
    pub(crate) start: Option<u64>,
    /// When the run ended that ended last, as are the next two.
    pub(crate) end: Option<u64>,
    /// How it ended, as the log says it: `0`, `signal 9`, `none`, `not started`.
    pub(crate) status: Option<Bytes>,
    /// The seconds that it took.
    pub(crate) seconds: Option<u64>,
    /// How many runs failed one after the other, up to the last one.
    pub(crate) failures: u64,
    quiet: QuietTime,
    /// When it is due next.
    pub(crate) due: Option<Minute>,
}

/// A run that a line of the log reports, and how it ended; not of one that starts.
fn run_in(words: &[u8]) -> Option<(&[u8], Option<&[u8]>)> {
    if let Some(run) = words.strip_prefix(b"started ") {
        return Some((run, None));
    }
    if let Some(run) = words.strip_prefix(b"not started ") {
        return Some((run, Some(b"not started".as_slice())));
    }
    let (run, status) = ended_run(words)?;
    Some((run, Some(status)))
}

impl JobRecord {
    fn new(alloc: Global, note: &JobNote) -> Result<JobRecord, AllocError> {
        Ok(JobRecord {
            command: Bytes::from_slice(alloc, note.command.as_slice())?,
            has_line: note.when.is_some(),
            run: None,
            start: None,
            end: None,
            status: None,
            seconds: None,
            failures: 0,
            quiet: QuietTime::NONE,
            due: None,
        })
    }

    fn begin(&mut self, alloc: Global, run: &[u8], at: Option<u64>) -> Result<(), AllocError> {
        self.run = Some(Bytes::from_slice(alloc, run)?);
        self.start = at;
        Ok(())
    }

    fn end(
        &mut self,
        alloc: Global,
        status: &[u8],
        at: Option<u64>,
        span: Option<u64>,
    ) -> Result<(), AllocError> {
        self.status = Some(Bytes::from_slice(alloc, status)?);
        self.end = at;
        self.seconds = span;
        self.failures = if status == b"0".as_slice() {
            0
        } else {
            self.failures.saturating_add(1)
        };
        Ok(())
    }
}

fn add_all(
    alloc: Global,
    records: &mut Vec<JobRecord>,
    jobs: &[JobNote],
) -> Result<(), AllocError> {
    for note in jobs {
        records.push(JobRecord::new(alloc, note)?)?;
    }
    Ok(())
}

/// In the order of the jobs; only of the first ones if memory runs out.
pub(crate) fn new_records(alloc: Global, jobs: &[JobNote]) -> Vec<JobRecord> {
    let mut records = Vec::new(alloc);
    let _ = add_all(alloc, &mut records, jobs);
    records
}

fn record_of<'r>(
    records: &'r mut [JobRecord],
    jobs: &[JobNote],
    run: &[u8],
) -> Option<&'r mut JobRecord> {
    let front = &note_of(jobs, run)?.front;
    for (note, record) in jobs.iter().zip(records.iter_mut()) {
        if note.front == *front {
            return Some(record);
        }
    }
    None
}

/// Notes what a line of the log reports of a run, and the seconds that it took if it ended. A run
/// for whose words there is no memory isn't noted.
pub(crate) fn note_record(
    alloc: Global,
    records: &mut [JobRecord],
    jobs: &[JobNote],
    words: &[u8],
    at: Option<u64>,
    span: Option<u64>,
) {
    let Some((run, status)) = run_in(words) else {
        return;
    };
    let Some(record) = record_of(records, jobs, run) else {
        return;
    };
    let _ = match status {
        Some(status) => record.end(alloc, status, at, span),
        None => record.begin(alloc, run, at),
    };
}

/// Notes when each job is due next, within 8 days after a minute; never without one.
pub(crate) fn look_ahead(records: &mut [JobRecord], jobs: &[JobNote], after: Option<Minute>) {
    for (note, record) in jobs.iter().zip(records.iter_mut()) {
        record.due = match after {
            Some(after) => next_due(note, &mut record.quiet, after),
            None => None,
        };
    }
}

fn place_of(records: &[JobRecord], wanted: &JobRecord) -> Option<usize>
    ensures { IfSome result (λ place. place < length records.now) }
{
    for place in 0..records.len() {
        let record = &records[place];
        if record.has_line == wanted.has_line && record.command == wanted.command {
            return Some(place);
        }
    }
    None
}

fn take_up(records: &mut [JobRecord], kept: Vec<JobRecord>) {
    let mut kept = kept;
    for record in records.iter_mut() {
        if let Some(place) = place_of(kept.as_slice(), record) {
            *record = kept.remove(place);
            record.quiet = QuietTime::NONE;
        }
    }
}

impl<'r, R, W> RunLog<'r, R, W> {
    /// Goes on from the records of an earlier plan: that of a job with the same command counts for a
    /// job of the same kind of table.
    pub fn take_up(&mut self, kept: Vec<JobRecord>)
        ensures left { (self.new.out ≡ self.old.out) × (self.new.setup ≡ self.old.setup)
            × (self.new.calls ≡ self.old.calls) × (self.new.is_timed ≡ self.old.is_timed) }
    {
        take_up(self.state.records.as_mut_slice(), kept);
    }

    /// Takes the records of the jobs, for the next plan.
    pub fn take_records(&mut self) -> Vec<JobRecord>
        ensures left { (self.new.out ≡ self.old.out) × (self.new.setup ≡ self.old.setup)
            × (self.new.calls ≡ self.old.calls) × (self.new.is_timed ≡ self.old.is_timed) }
    {
        mem::replace(&mut self.state.records, Vec::new(self.alloc))
    }
}

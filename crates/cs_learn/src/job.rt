//! The jobs of both tables as logs name them, and what logs say of their runs.
use crate::evidence::{Evidence, Ran, ended, without_end};
use crate::line::LogLine;
use crate::logged_text::logged;
use crate::tally::Tally;
use cs_anacrontab::Job as AnacronJob;
use cs_civil::Bytes;
use cs_crontab::Line;
use cs_place::{Place, place_of, push_shown};
use cs_retrace::words::is_word;
use cs_retrace::{JobName, Moment};
use std::alloc::{AllocError, Global};

/// How logs name the command of a crontab's line.
#[derive(Drop)]
struct Called {
    user: Option<Bytes>,
    /// Its command as Debian's cron logs it, as cronie does, and as this program's log lists it.
    debian: Bytes,
    cronie: Bytes,
    shown: Bytes,
}

impl Called {
    /// Whether cron's log names it so; an unknown user may be any.
    fn is(&self, user: &[u8], command: &[u8]) -> bool {
        let may_be = match &self.user {
            Some(own) => is_word(own.as_slice(), user),
            None => true,
        };
        may_be
            && (is_word(self.debian.as_slice(), command)
                || is_word(self.cronie.as_slice(), command))
    }
}

/// A job of a table, and what the logs say of its runs.
#[derive(Drop)]
pub struct Job {
    /// Its line or its identifier.
    pub name: JobName,
    /// How logs name it; none for an anacron job.
    called: Option<Called>,
    /// What the logs say of its runs.
    pub evidence: Evidence,
    /// How many runs of its line belonged to another table.
    pub refused: u64,
    /// A start by anacron without an end so far: when, and the number of its process.
    open: Option<(Moment, u64)>,
}

impl Job {
    fn new(alloc: Global, name: JobName, called: Option<Called>) -> Job {
        Job {
            name,
            called,
            evidence: Evidence::new(alloc),
            refused: 0,
            open: None,
        }
    }

    /// The job of a line, with the user of its place, if it was gathered.
    fn of_line(alloc: Global, places: &[Place], line: &Line) -> Result<Job, AllocError> {
        let mut shown = Vec::new(alloc);
        push_shown(&mut shown, line.command())?;
        let user = match place_of(places, line.number()) {
            Some(place) => Some(Bytes::from_slice(alloc, place.user.as_slice())?),
            None => None,
        };
        let called = Called {
            user,
            debian: logged(alloc, true, line.command())?,
            cronie: logged(alloc, false, line.command())?,
            shown: Bytes::from_vec(shown),
        };
        let name = JobName::Line(u64::from(line.number()));
        Ok(Job::new(alloc, name, Some(called)))
    }

    pub(crate) fn is_anacron(&self) -> bool {
        self.called.is_none()
    }

    /// Whether cron's log doesn't distinguish the jobs, so that both count each run.
    pub(crate) fn is_like(&self, other: &Job) -> bool {
        let (Some(own), Some(other)) = (&self.called, &other.called) else {
            return false;
        };
        let user = match (&own.user, &other.user) {
            (_, Some(user)) => user.as_slice(),
            (Some(user), None) => user.as_slice(),
            (None, None) => b"",
        };
        own.is(user, other.debian.as_slice())
    }

    /// Adds the run if it is the job's: in this program's log by the number of the line, and by the
    /// command if the log lists the table; in cron's by command and user.
    fn take(&mut self, line: &LogLine, ran: Ran) -> Result<(), AllocError> {
        let Some(called) = &self.called else {
            return Ok(());
        };
        if line.due.is_none() {
            if called.is(line.user.as_slice(), line.command.as_slice()) {
                self.evidence.add(ran)?;
            }
        } else if self.name.is_line(line.number) {
            if !line.is_listed || is_word(called.shown.as_slice(), line.command.as_slice()) {
                self.evidence.add(ran)?;
            } else {
                self.refused = self.refused.saturating_add(1);
            }
        }
        Ok(())
    }

    /// Anacron starts. An open start has no end then, as anacron runs a job only once at a time.
    pub(crate) fn begin(&mut self, line: &LogLine, tally: &mut Tally) -> Result<(), AllocError> {
        self.close(line.at, tally)?;
        tally.begun = tally.begun.saturating_add(1);
        self.open = Some((line.at, line.number));
        Ok(())
    }

    /// Anacron ends the start by the same process.
    pub(crate) fn end(&mut self, line: &LogLine, tally: &mut Tally) -> Result<(), AllocError> {
        let began = match self.open {
            Some((began, starter)) if starter == line.number => began,
            _ => {
                tally.no_beginning = tally.no_beginning.saturating_add(1);
                return Ok(());
            }
        };
        self.open = None;
        match ended(began, line.at, tally) {
            Some(ran) => self.evidence.add(ran),
            None => Ok(()),
        }
    }

    /// No line gives the end of an open start by anacron.
    pub(crate) fn close(&mut self, later: Moment, tally: &mut Tally) -> Result<(), AllocError> {
        let Some((began, _starter)) = self.open else {
            return Ok(());
        };
        self.open = None;
        tally.unended = tally.unended.saturating_add(1);
        self.evidence.add(without_end(began, later))
    }
}

/// Lets each job count the run of this line.
pub(crate) fn take_run(jobs: &mut Vec<Job>, line: &LogLine, ran: Ran) -> Result<(), AllocError> {
    for i in 0..jobs.len() {
        jobs[i].take(line, ran)?;
    }
    Ok(())
}

/// The jobs of a crontab's lines, then those of an anacrontab.
pub(crate) fn jobs_of(
    alloc: Global,
    lines: &[Line],
    places: &[Place],
    others: &[AnacronJob],
) -> Result<Vec<Job>, AllocError> {
    let mut jobs = Vec::new(alloc);
    for line in lines {
        jobs.push(Job::of_line(alloc, places, line)?)?;
    }
    push_others(alloc, &mut jobs, others)?;
    Ok(jobs)
}

fn push_others(
    alloc: Global,
    jobs: &mut Vec<Job>,
    others: &[AnacronJob],
) -> Result<(), AllocError> {
    for other in others {
        let identifier = Bytes::from_slice(alloc, other.identifier())?;
        jobs.push(Job::new(alloc, JobName::Identifier(identifier), None))?;
    }
    Ok(())
}

//! A daemon that begins after one that ended without saying so.
use crate::entry::Turn;
use crate::retracing::MOST_MINUTES;
use crate::told::{Fate, RunTold};
use crate::trace::Trace;
use crate::words::{behind, is_word};
use std::alloc::{AllocError, Global};

/// Minutes from the start of a script to a daemon after a crash.
const LONGEST: u64 = MOST_MINUTES / 2;

impl<'l> Trace<'l> {
    pub(crate) fn begin_anew(&mut self, alloc: Global, minute: u64) {
        let (daemons, digests) = (self.daemons, self.digests);
        *self = Trace::new(alloc);
        self.daemons = daemons;
        self.first = daemons;
        self.digests = digests;
        self.opening = Some((minute, true));
    }

    /// The history goes on only if the daemon before began in this log, wasn't asked to stop and
    /// waited for no run: then it is down from its last report on.
    pub(crate) fn begin_daemon(&mut self, alloc: Global, minute: u64) -> Result<(), AllocError> {
        self.daemons = self.daemons.saturating_add(1);
        let has_begun = match self.opening {
            Some((_, has_begun)) => has_begun,
            None => false,
        };
        if !has_begun || self.is_over || self.left > 0 {
            self.begin_anew(alloc, minute);
            return Ok(());
        }
        if self.opens.is_none() {
            let words: &[&[u8]] = &[b"# this daemon ended without saying so\ndown\n"];
            self.put_next(alloc, self.latest, Turn::Crashes, words)?;
        }
        self.opens = Some(minute);
        Ok(())
    }

    /// The history begins anew where the end of a run that the crash met is unknown, the clock was
    /// put back, or the script would get too long.
    pub(crate) fn open(&mut self, alloc: Global) -> Result<(), AllocError> {
        let Some(minute) = self.opens else {
            return Ok(());
        };
        self.opens = None;
        let since = match self.opening {
            Some((since, _)) => since,
            None => minute,
        };
        let is_long = minute.saturating_sub(since) > LONGEST;
        if self.under_way > 0 || minute < self.latest || is_long {
            self.begin_anew(alloc, minute);
            return Ok(());
        }
        self.come(alloc, minute, Turn::Returns)
    }

    /// Of the last daemon, which still waits for runs.
    pub(crate) fn delay(&mut self, minute: u64) {
        match (self.opens, self.opening) {
            (Some(_), _) => self.opens = Some(minute),
            (None, Some((_, has_begun))) => self.opening = Some((minute, has_begun)),
            (None, None) => {}
        }
    }

    /// A run of the crontab that the last daemon waited for ends while none is up: one comes up and
    /// goes down again, so that the time passes. An anacron job's end stays unknown: no event says
    /// that it leaves no stamp.
    pub(crate) fn take_fate(
        &mut self,
        alloc: Global,
        second: u64,
        fate: Fate,
        run: RunTold<'_>,
    ) -> Result<(), AllocError> {
        match fate {
            Fate::CutOff => {}
            Fate::StillRunning => {
                self.left = self.left.saturating_add(1);
                return Ok(());
            }
            Fate::NoLonger => {
                self.left = self.left.saturating_sub(1);
                self.delay(second / 60);
            }
        }
        if self.opens.is_none() || run.line.is_none() {
            return Ok(());
        }
        if let Fate::CutOff = fate {
            self.put_next(alloc, self.latest, Turn::Follows, &[b"# cut off\n"])?;
            return self.put_end(alloc, self.latest, run);
        }
        let minute = self.settled_minute(second);
        self.come(alloc, minute, Turn::Returns)?;
        self.put_end(alloc, minute, run)?;
        self.go(alloc, minute, Turn::Crashes)
    }

    /// The history begins with a daemon after a crash that has another table or other declarations.
    pub(crate) fn take_digest(&mut self, alloc: Global, text: &'l [u8]) {
        let (table, declarations) = self.digests;
        let is_other = if let Some(digest) = behind(b"table sha256 ", text) {
            self.digests = (digest, declarations);
            !is_word(table, digest)
        } else if let Some(digest) = behind(b"declarations sha256 ", text) {
            self.digests = (table, digest);
            !is_word(declarations, digest)
        } else {
            false
        };
        if let (Some(minute), true) = (self.opens, is_other) {
            self.begin_anew(alloc, minute);
        }
    }
}

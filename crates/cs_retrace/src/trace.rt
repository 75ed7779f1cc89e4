//! The events that the lines of a log report.
use crate::entry::{Entry, Turn};
use crate::moment::Moment;
use crate::stamp::time_and_rest;
use crate::told::{RunTold, Verb, begins, fate_in, first_minute, identifier, is_end, outage, told};
use cs_civil::{Bytes, Minute, date_text};
use indexmap::IndexMap;
use std::alloc::{AllocError, Global};

/// What is known after some lines of a log.
#[derive(Drop)]
pub(crate) struct Trace<'l> {
    /// Where the script starts, and whether the log shows that its daemon began there.
    pub(crate) opening: Option<(u64, bool)>,
    /// How many daemons began.
    pub(crate) daemons: u64,
    /// The first of them in the script.
    pub(crate) first: u64,
    /// Whether the last one starts nothing more.
    pub(crate) is_over: bool,
    /// When the daemon after a crash comes up, while it hasn't yet.
    pub(crate) opens: Option<u64>,
    /// Of the last table and declarations.
    pub(crate) digests: (&'l [u8], &'l [u8]),
    /// How many runs have begun whose ends aren't known.
    pub(crate) under_way: u64,
    /// How many runs of an earlier daemon the last one waits for.
    pub(crate) left: u64,
    pub(crate) latest: u64,
    /// The minute of the last end.
    freed: u64,
    /// Of the runs that waited, by line and minute, whether they wait still.
    waiting: IndexMap<(u64, u64), bool>,
    /// In the order of the log.
    pub(crate) events: Vec<Entry>,
}

/// The text of a minute, `?` where it isn't from 1970-01-02 to 9999-12-31.
pub(crate) fn date(at: u64) -> [u8; 16] {
    match Minute::new(at) {
        Some(minute) => date_text(minute),
        None => [b'?'; 16],
    }
}

fn by_clock(offset: i16, second: u64) -> u64 {
    let ahead = 60 * u64::from(offset.unsigned_abs());
    if offset < 0 {
        second.saturating_sub(ahead)
    } else {
        second.saturating_add(ahead)
    }
}

fn kind_of(line: Option<u64>) -> &'static str {
    match line {
        Some(_) => "line ",
        None => "job ",
    }
}

impl<'l> Trace<'l> {
    pub(crate) fn new(alloc: Global) -> Trace<'l> {
        Trace {
            opening: None,
            daemons: 0,
            first: 0,
            is_over: false,
            opens: None,
            digests: (b"", b""),
            under_way: 0,
            left: 0,
            latest: 0,
            freed: 0,
            waiting: IndexMap::new(alloc),
            events: Vec::new(alloc),
        }
    }

    /// Adds an event, whose line has these words; without words only its minute is known.
    fn put(
        &mut self,
        alloc: Global,
        at: u64,
        turn: Turn,
        order: u64,
        words: &[&[u8]],
    ) -> Result<(), AllocError> {
        let mut text = Vec::new(alloc);
        for word in words {
            text.extend_from_slice(word)?;
        }
        self.latest = self.latest.max(at);
        self.events.push(Entry {
            at,
            turn,
            order,
            text: Bytes::from_vec(text),
        })?;
        Ok(())
    }

    /// Adds an event after all that the log has reported.
    pub(crate) fn put_next(
        &mut self,
        alloc: Global,
        at: u64,
        turn: Turn,
        words: &[&[u8]],
    ) -> Result<(), AllocError> {
        let order = self.events.len() as u64;
        self.put(alloc, at, turn, order, words)
    }

    pub(crate) fn go(&mut self, alloc: Global, at: u64, turn: Turn) -> Result<(), AllocError> {
        self.put_next(alloc, at, turn, &[b"down\n"])
    }

    pub(crate) fn come(&mut self, alloc: Global, at: u64, turn: Turn) -> Result<(), AllocError> {
        self.put_next(alloc, at, turn, &[b"up ", &date(at), b"\n"])
    }

    /// A daemon that starts nothing more is down. For a report of a later minute it comes up in
    /// that minute and goes down again: so the time passes, and nothing begins.
    fn reach(&mut self, alloc: Global, at: u64) -> Result<(), AllocError> {
        if self.is_over && self.latest < at {
            self.come(alloc, at, Turn::Comes)?;
            self.go(alloc, at, Turn::Goes)?;
        }
        Ok(())
    }

    /// The minute of a line. The daemon looks at the clock once a second, so what it reports in the
    /// first two seconds of a minute may have come in the minute before.
    pub(crate) fn settled_minute(&self, second: u64) -> u64 {
        self.latest.max(second.saturating_sub(2) / 60)
    }

    /// A line of the crontab begins in the minute in which it is due, among those of that minute in
    /// the order of the table.
    fn begin(&mut self, alloc: Global, line: u64, run: RunTold<'_>) -> Result<(), AllocError> {
        let words: &[&[u8]] = &[b"begin line ", run.name, b"\n"];
        self.put(alloc, run.at, Turn::Begins, line, words)
    }

    /// A run that waits gets its lock after the last end; one that doesn't begins, or is caught up
    /// if it is an anacron job's.
    fn start(&mut self, alloc: Global, run: RunTold<'_>) -> Result<(), AllocError> {
        self.under_way = self.under_way.saturating_add(1);
        let Some(line) = run.line else {
            let name = identifier(alloc, run.name)?;
            let words: &[&[u8]] = &[b"catch ", name.as_slice(), b"\n"];
            return self.put_next(alloc, run.at, Turn::Follows, words);
        };
        let waits = match self.waiting.get(&(line, run.at)) {
            Some(waits) => *waits,
            None => false,
        };
        if !waits {
            return self.begin(alloc, line, run);
        }
        let words: &[&[u8]] = &[b"got line ", run.name, b" ", &date(run.at), b"\n"];
        self.put_next(alloc, run.at.max(self.freed), Turn::Follows, words)?;
        self.waiting.insert((line, run.at), false)?;
        Ok(())
    }

    pub(crate) fn put_end(
        &mut self,
        alloc: Global,
        minute: u64,
        run: RunTold<'_>,
    ) -> Result<(), AllocError> {
        self.under_way = self.under_way.saturating_sub(1);
        let kind = kind_of(run.line).as_bytes();
        let name = identifier(alloc, run.name)?;
        let words: &[&[u8]] = &[b"end ", kind, name.as_slice(), b" ", &date(run.at), b"\n"];
        self.put_next(alloc, minute, Turn::Follows, words)
    }

    fn end(&mut self, alloc: Global, second: u64, run: RunTold<'_>) -> Result<(), AllocError> {
        let minute = self.settled_minute(second);
        self.reach(alloc, minute)?;
        self.put_end(alloc, minute, run)?;
        self.freed = minute;
        Ok(())
    }

    /// Takes a report of a run. Only lines of the crontab wait or are skipped. An overrun is
    /// reported in the minute from which on the run is late, so that this minute has come.
    fn run(&mut self, alloc: Global, second: u64, run: RunTold<'_>) -> Result<(), AllocError> {
        self.open(alloc)?;
        match (run.verb, run.line) {
            (Verb::Started, _) => self.start(alloc, run),
            (Verb::Waiting, Some(line)) => {
                self.begin(alloc, line, run)?;
                self.waiting.insert((line, run.at), true)?;
                Ok(())
            }
            (Verb::Skipped, Some(line)) => self.begin(alloc, line, run),
            (Verb::Ended, _) => self.end(alloc, second, run),
            (Verb::NotStarted, _) => self.end(alloc, second, run),
            (Verb::Overrun, _) => {
                self.reach(alloc, second / 60)?;
                self.put_next(alloc, second / 60, Turn::Follows, &[])
            }
            _ => Ok(()),
        }
    }

    /// One that still waits for runs comes up and goes down.
    fn end_daemon(&mut self, alloc: Global, second: u64) -> Result<(), AllocError> {
        if self.left > 0 {
            self.delay(second / 60);
        }
        self.open(alloc)?;
        let minute = self.settled_minute(second);
        self.go(alloc, minute, Turn::Goes)?;
        self.is_over = true;
        Ok(())
    }

    /// A daemon is down in an outage, and when it starts nothing more; one that follows another
    /// comes up in the minute that it names. Of each other line only the minute counts.
    fn other(&mut self, alloc: Global, second: u64, text: &'l [u8]) -> Result<(), AllocError> {
        self.take_digest(alloc, text);
        if let Some((from, to)) = outage(text) {
            self.open(alloc)?;
            self.go(alloc, from, Turn::Goes)?;
            return self.come(alloc, to, Turn::Comes);
        }
        if let Some(at) = first_minute(text) {
            self.begin_anew(alloc, at);
        }
        if is_end(text) && !self.is_over {
            return self.end_daemon(alloc, second);
        }
        if self.opens.is_some() {
            return Ok(());
        }
        let minute = self.settled_minute(second);
        self.reach(alloc, minute)?;
        self.put_next(alloc, minute, Turn::Follows, &[])
    }

    /// Takes the next line, without its newline. Nothing before a daemon's beginning counts, unless
    /// the one before ended without saying so; a log that begins amid a daemon's lines starts with
    /// the minute before. A line without a time is ignored.
    pub(crate) fn line(
        &mut self,
        alloc: Global,
        offset: i16,
        line: &'l [u8],
    ) -> Result<(), AllocError> {
        let Some((Moment::Universal(second), text)) = time_and_rest(line) else {
            return Ok(());
        };
        let second = by_clock(offset, second);
        if begins(text) {
            return self.begin_daemon(alloc, second / 60);
        }
        if self.opening.is_none() {
            self.opening = Some(((second / 60).saturating_sub(1), false));
        }
        if let Some((what, run)) = fate_in(text) {
            return self.take_fate(alloc, second, what, run);
        }
        match told(text) {
            Some(run) => self.run(alloc, second, run),
            None => self.other(alloc, second, text),
        }
    }
}

ghost use Rattle.std.specs.Prelude.{◌≡◌, ◌++◌, ℕ, List, Option, None, OnOk};
ghost use Rattle.std.specs.Prelude.{[], Bool, true, false};
ghost use Rattle.std.specs.Io.KnownBytes.{Appends};
ghost use Rattle.cs_machine.specs.RunLog.{Follows, IsCalled, line_text};

use crate::hook_call::{HookCall, note_call};
use crate::line_text::{push_line, push_meeting};
use crate::machine_clock::{minute_after, unix_seconds};
use crate::records::look_ahead;
use crate::setup::{JobNote, Setup};
use crate::state::State;
use crate::state_text::state_text;
use std::alloc::{AllocError, Global};
use std::io::Write;
use std::{io, mem, time};

/// Writes a daemon's log to another writer, and keeps the daemon's state. Each text that is written
/// to it is one line, and goes on at once: as it is, or with the time in UTC before it:
///
/// `2024-09-13T23:30:01Z started line 1 due 2024-09-13 23:30`
///
/// With times, the end of a run whose start was written is followed by the seconds between them, 0
/// if the clock was put back. If the clock can't be read, a line has no time. After the line of a
/// late run comes one with the jobs whose runs it may meet, if there are any:
///
/// `2024-09-13T23:42:00Z line 1 due 2024-09-13 23:30 may meet line 5, job backup`
#[derive(Drop)]
pub struct RunLog<'r, R, W> {
    pub(crate) rt: &'r R,
    pub(crate) alloc: Global,
    out: W,
    is_timed: bool,
    pub(crate) setup: Setup<'r>,
    line: Vec<u8>,
    pub(crate) state: State,
    calls: Vec<HookCall>,
}

impl<'r, R: time::Clock, W: Write> RunLog<'r, R, W> {
    /// Returns a log without lines, over another writer.
    pub fn new(
        rt: &'r R,
        alloc: Global,
        out: W,
        is_timed: bool,
        setup: Setup<'r>,
    ) -> RunLog<'r, R, W>
        ensures out { result.out ≡ out }
        ensures is_timed { result.is_timed ≡ is_timed }
        ensures setup { result.setup ≡ setup.entry }
        ensures calls { result.calls.items ≡ [] }
    {
        RunLog {
            rt,
            alloc,
            out,
            is_timed,
            setup,
            line: Vec::new(alloc),
            state: State::new(alloc, unix_seconds(rt), setup.jobs),
            calls: Vec::new(alloc),
        }
    }

    /// Writes a line of our own, given without its newline; not in a log without times.
    pub fn note(&mut self, text: &[u8]) -> io::Result<()>
        ensures timed { self.old.is_timed ≡ true → OnOk result ((at : Option ℕ)
            × Appends (W.contents self.old.out) (W.contents self.new.out)
            (line_text at text.now None)) }
        ensures untimed { self.old.is_timed ≡ false → self.new.out ≡ self.old.out }
        ensures left { (self.new.calls ≡ self.old.calls)
            × (self.new.setup ≡ self.old.setup) × (self.new.is_timed ≡ self.old.is_timed) }
    {
        if !self.is_timed {
            return Ok(());
        }
        self.line.clear();
        push_line(
            self.alloc,
            &mut self.line,
            unix_seconds(self.rt),
            text,
            None,
        )?;
        self.out.write_all(self.line.as_slice())
    }

    /// Takes what a runner has left for the log, and writes it as [`note`](RunLog::note) does, even
    /// if memory runs out for the state.
    pub fn note_left(&mut self, text: &[u8]) -> io::Result<()>
        ensures calls { (kept : Bool) × (span : Option ℕ) × IsCalled self.old.setup text.now span
            kept self.old.calls.items self.new.calls.items }
        ensures timed { self.old.is_timed ≡ true → OnOk result ((at : Option ℕ)
            × Appends (W.contents self.old.out) (W.contents self.new.out)
            (line_text at text.now None)) }
        ensures untimed { self.old.is_timed ≡ false → self.new.out ≡ self.old.out }
        ensures left { (self.new.setup ≡ self.old.setup)
            × (self.new.is_timed ≡ self.old.is_timed) }
    {
        let at = unix_seconds(self.rt);
        let _ = self.take(text, at);
        self.note(text)
    }

    /// Writes the line that follows by the same call, even if memory runs out for the state.
    fn tell(&mut self, words: &[u8]) -> io::Result<()>
        ensures calls { (kept : Bool) × (span : Option ℕ) × IsCalled self.old.setup words.now span
            kept self.old.calls.items self.new.calls.items }
        ensures line { OnOk result ((at : Option ℕ) × (span : Option ℕ) × (meeting : List ℕ)
            × Follows at words.now self.old.setup.jobs.now meeting
            × Appends (W.contents self.old.out) (W.contents self.new.out)
            (line_text at words.now span ++ meeting)) }
        ensures left { (self.new.setup ≡ self.old.setup)
            × (self.new.is_timed ≡ self.old.is_timed) }
    {
        let at = unix_seconds(self.rt);
        let span = self.take(words, at);
        self.line.clear();
        push_line(self.alloc, &mut self.line, at, words, span)?;
        push_meeting(self.alloc, &mut self.line, at, words, self.setup.jobs)?;
        self.out.write_all(self.line.as_slice())
    }

    /// Even if memory runs out for the state.
    fn pass(&mut self, words: &[u8], line: &[u8]) -> io::Result<()>
        ensures calls { (kept : Bool) × (span : Option ℕ) × IsCalled self.old.setup words.now span
            kept self.old.calls.items self.new.calls.items }
        ensures line { OnOk result
            (Appends (W.contents self.old.out) (W.contents self.new.out) line.now) }
        ensures left { (self.new.setup ≡ self.old.setup)
            × (self.new.is_timed ≡ self.old.is_timed) }
    {
        let at = unix_seconds(self.rt);
        let _ = self.take(words, at);
        self.out.write_all(line)
    }

    fn take(&mut self, words: &[u8], at: Option<u64>) -> Option<u64>
        ensures calls { (kept : Bool) × IsCalled self.old.setup words.now result kept
            self.old.calls.items self.new.calls.items }
        ensures left { (self.new.out ≡ self.old.out) × (self.new.setup ≡ self.old.setup)
            × (self.new.is_timed ≡ self.old.is_timed) }
    {
        let span = self.state.take(words, at, self.setup.jobs);
        let _ = note_call(self.alloc, &mut self.calls, words, span, &self.setup);
        span
    }

    /// Returns what is said of the jobs of its plan.
    pub fn jobs(&self) -> &'r [JobNote]
        ensures { result.now ≡ self.now.setup.jobs.now }
    {
        self.setup.jobs
    }

    /// Takes the calls of hooks since the last time, in the order of the log's lines: at most 256.
    pub fn take_calls(&mut self) -> Vec<HookCall>
        ensures taken { result.items ≡ self.old.calls.items }
        ensures none { self.new.calls.items ≡ [] }
        ensures left { (self.new.out ≡ self.old.out) × (self.new.setup ≡ self.old.setup)
            × (self.new.is_timed ≡ self.old.is_timed) }
    {
        mem::replace(&mut self.calls, Vec::new(self.alloc))
    }

    /// Notes that the daemon starts nothing more, and writes why as a line of our own.
    pub fn note_end(&mut self, why: &[u8]) -> io::Result<()>
        ensures timed { self.old.is_timed ≡ true → OnOk result ((at : Option ℕ)
            × Appends (W.contents self.old.out) (W.contents self.new.out)
            (line_text at why.now None)) }
        ensures untimed { self.old.is_timed ≡ false → self.new.out ≡ self.old.out }
        ensures left { (self.new.calls ≡ self.old.calls) × (self.new.setup ≡ self.old.setup)
            × (self.new.is_timed ≡ self.old.is_timed) }
    {
        self.state.stop();
        self.note(why)
    }

    /// Returns which stamps aren't written, for the lock at the daemon's end.
    pub fn last_word(&self) -> Result<Vec<u8>, AllocError> {
        self.state.last_word()
    }

    /// The state as one JSON object in one line, if a line came or a minute passed since the last
    /// call. None too if the clock can't be read or memory runs out.
    pub fn state_if_due(&mut self) -> Option<Vec<u8>>
        ensures left { (self.new.out ≡ self.old.out) × (self.new.setup ≡ self.old.setup)
            × (self.new.calls ≡ self.old.calls) }
    {
        let at = unix_seconds(self.rt)?;
        if !self.state.is_due(at) {
            return None;
        }
        let after = if self.state.is_stopping {
            None
        } else {
            minute_after(at, self.setup.offset)
        };
        look_ahead(self.state.records.as_mut_slice(), self.setup.jobs, after);
        state_text(self.alloc, &self.setup, &self.state, at).ok()
    }
}

impl<'r, R: time::Clock, W: Write> Write for RunLog<'r, R, W> {
    fn write(&mut self, buf: &[u8]) -> io::Result<usize> {
        let words = buf.strip_suffix(b"\n").unwrap_or(buf);
        if self.is_timed {
            self.tell(words)?;
        } else {
            self.pass(words, buf)?;
        }
        Ok(buf.len())
    }

    fn flush(&mut self) -> io::Result<()> {
        self.out.flush()
    }
}

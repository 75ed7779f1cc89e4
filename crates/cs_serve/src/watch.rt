//! What a daemon does each second while its clock waits, and while its last runs end.
use crate::anew::{Accepted, Rejection, read_anew};
use crate::diary::{Hand, back_line};
use crate::hooks::{Streams, call_hooks};
use crate::leftover::{tell_ended, tell_left};
use cs_args::RunWords;
use cs_ask::reply_text;
use cs_files::Status;
use cs_io::Machine;
use cs_machine::{Attendant, ClockBack, FolderLock, RequestFile, ToldFile};
use std::alloc::{AllocError, Global};
use std::io::Write;
use std::process::Processes;
use std::rt::{Clock, Files};
use std::sync::Wait;
use std::time::Duration;
use std::{io, mem, thread};

/// The files by which a daemon is asked, answers and shows its state, and the lock of their folder.
#[derive(Drop)]
pub(crate) struct DaemonFiles<'f> {
    pub(crate) stop: RequestFile,
    pub(crate) reload: RequestFile,
    drain: RequestFile,
    pub(crate) answer: ToldFile<'f>,
    pub(crate) state: ToldFile<'f>,
    lock: Option<FolderLock>,
}

impl<'f> DaemonFiles<'f> {
    pub(crate) fn of(alloc: Global, folder: &'f str) -> Option<DaemonFiles<'f>> {
        let (stop, reload) = (
            RequestFile::to_stop(alloc, folder).ok(),
            RequestFile::to_reload(alloc, folder).ok(),
        );
        let drain = RequestFile::to_drain(alloc, folder).ok();
        let answer = ToldFile::answer(alloc, folder).ok();
        let told = answer.zip(ToldFile::state(alloc, folder).ok());
        let (((stop, reload), drain), (answer, state)) = stop.zip(reload).zip(drain).zip(told)?;
        Some(DaemonFiles {
            stop,
            reload,
            drain,
            answer,
            state,
            lock: None,
        })
    }

    pub(crate) fn keep(&mut self, lock: FolderLock) {
        drop(mem::replace(&mut self.lock, Some(lock)));
    }

    fn are_lost<R: Files>(&self, rt: &R, folder: &str) -> bool {
        match &self.lock {
            Some(lock) => lock.is_lost(rt, folder),
            None => false,
        }
    }

    pub(crate) fn leave_running(&self) {
        if let Some(lock) = &self.lock {
            lock.leave(b"a daemon goes on");
        }
    }

    /// Without memory for the word, that of [`DaemonFiles::leave_running`] stays.
    pub(crate) fn leave_word(&self, word: Result<Vec<u8>, AllocError>) {
        if let (Some(lock), Ok(word)) = (&self.lock, word) {
            lock.leave(word.as_slice());
        }
    }

    /// Removes the requests to an earlier daemon, and its answer.
    pub(crate) fn clear<R: Files>(&self, rt: &R) -> io::Result<()> {
        self.stop.remove(rt)?;
        self.forget_reload(rt)?;
        self.answer.remove(rt)
    }

    fn forget_reload<R: Files>(&self, rt: &R) -> io::Result<()> {
        self.drain.remove(rt)?;
        self.reload.remove(rt)
    }
}

/// Looks for requests, keeps the file of the daemon's state, calls hooks, and writes down what
/// runners and a clock report.
#[derive(Drop)]
pub(crate) struct Watch<'a, 'r, R, W> {
    rt: &'a R,
    alloc: Global,
    files: &'a DaemonFiles<'a>,
    words: RunWords<'a>,
    streams: Streams<'a>,
    hand: Hand<'a, 'r, R, W>,
    /// The file that asks for a reload stays, though it was answered.
    is_passed_over: bool,
    /// The folder of stamps was taken away.
    pub(crate) is_lost: bool,
    /// The plan that was accepted, if one was.
    pub(crate) accepted: Option<Accepted<'a>>,
}

impl<'a, 'r, R, W> Watch<'a, 'r, R, W> {
    pub(crate) fn new(
        rt: &'a R,
        alloc: Global,
        files: &'a DaemonFiles<'a>,
        words: RunWords<'a>,
        streams: Streams<'a>,
        hand: Hand<'a, 'r, R, W>,
    ) -> Watch<'a, 'r, R, W> {
        Watch {
            rt,
            alloc,
            files,
            words,
            streams,
            hand,
            is_passed_over: false,
            is_lost: false,
            accepted: None,
        }
    }
}

impl<'a, 'r, R: Files + Clock + Wait, W: Write> Watch<'a, 'r, R, W> {
    /// Without its folder nobody can ask the daemon.
    fn is_folder_lost(&mut self) -> bool {
        self.is_lost = self.files.are_lost(self.rt, self.words.stamps);
        if self.is_lost {
            self.hand.note_end(b"the folder of stamps was taken away");
        }
        self.is_lost
    }

    fn is_stop_there(&mut self) -> bool {
        let is_there = self.files.stop.is_there(self.rt);
        if is_there {
            self.hand.note_end(b"asked to stop");
        }
        is_there
    }

    /// Whether the daemon is asked to reload, and hasn't answered yet.
    fn is_reload_there(&mut self) -> bool {
        let is_there = self.files.reload.is_there(self.rt);
        self.is_passed_over &= is_there;
        if is_there && !self.is_passed_over {
            self.hand.note(b"asked to reload");
            return true;
        }
        false
    }

    /// Answers a request to reload. Returns whether that could be reported.
    fn answer(&mut self, status: Status, first: &[u8], second: &[u8]) -> bool {
        let is_written = match reply_text(self.alloc, status, first, second) {
            Ok(text) => self.files.answer.replace(self.rt, text.as_slice()).is_ok(),
            Err(AllocError) => false,
        };
        if !is_written {
            // that of an earlier call isn't taken for it
            let _ = self.files.answer.remove(self.rt);
        }
        // also if the answer can't be written, so that nobody waits for it for ever
        let is_removed = self.files.forget_reload(self.rt).is_ok();
        if !is_removed {
            let _ = self.files.answer.remove(self.rt);
        }
        self.is_passed_over = !is_removed;
        is_written && is_removed
    }

    /// Takes an accepted plan, and answers with its warnings and what it waits for, unless that
    /// can't be reported. Returns whether the old plan starts nothing more.
    fn take(&mut self, accepted: Accepted<'a>) -> bool {
        let drains = self.files.drain.is_there(self.rt);
        let awaited = self.hand.awaited(self.alloc, drains);
        if !self.answer(
            Status::Done,
            accepted.warnings.as_slice(),
            awaited.as_slice(),
        ) {
            self.hand.note(b"can't answer, the old plan goes on");
            drop(accepted);
            return false;
        }
        if drains {
            self.hand
                .note_end(b"reload accepted, the runs under way end first");
        } else {
            self.hand.note(b"reload accepted, the old plan goes on until nothing runs or waits");
        }
        drop(mem::replace(&mut self.accepted, Some(accepted)));
        drains
    }

    /// Notes why the files aren't accepted, and answers the same. Returns that no plan is accepted.
    fn reject(&mut self, rejection: &Rejection) -> bool {
        self.hand.note(b"reload refused, the old plan goes on");
        let (first, second) = rejection.texts();
        for text in [first, second] {
            self.hand.note_lines(text);
        }
        let _ = self.answer(rejection.status(), first, second);
        false
    }
}

impl<'a, 'r, R: Files + Input + Clock + Wait + Processes, W: Write> Attendant
    for Watch<'a, 'r, R, W> {
    fn is_stop_asked(&mut self) -> bool {
        let is_asked = if self.is_folder_lost() || self.is_stop_there() {
            true
        } else if self.is_reload_there() {
            match read_anew(self.rt, self.alloc, &mut Machine::new(self.rt), self.words) {
                Ok(accepted) => self.take(accepted),
                Err(rejection) => self.reject(&rejection),
            }
        } else {
            false
        };
        self.attend();
        is_asked
    }

    fn is_rest_awaited(&self) -> bool {
        self.accepted.is_some()
    }

    fn attend(&mut self) {
        self.hand.note_remarks();
        call_hooks(
            self.rt,
            self.alloc,
            &self.words,
            self.streams,
            &mut self.hand,
        );
        if !self.files.are_lost(self.rt, self.words.stamps) {
            self.hand.keep_state();
        }
    }

    fn wait_to_begin(&mut self) -> bool {
        let (rt, alloc, remarks) = (self.rt, self.alloc, self.streams.remarks);
        tell_left(rt, alloc, &remarks.runs, &mut self.hand);
        for _ in rt.forever() {
            if remarks.runs.left(rt) == 0 {
                return true;
            }
            thread::sleep(rt, Duration::from_secs(1));
            if self.is_stop_asked() {
                return false;
            }
            tell_ended(
                rt,
                alloc,
                &remarks.runs,
                &mut self.hand,
                b"no longer running ",
            );
        }
        unreachable!()
    }

    fn tell_back(&mut self, back: ClockBack) {
        if let Ok(line) = back_line(self.alloc, back) {
            self.hand.note(line.as_slice());
        }
    }

    fn tell_over(&mut self) {
        self.hand.note_end(b"the minutes of --minutes are over");
    }
}

/// An attendant that asks nothing, and lets no clock begin.
#[derive(Drop)]
pub(crate) struct Idle;

impl Attendant for Idle {
    fn is_stop_asked(&mut self) -> bool {
        false
    }

    fn wait_to_begin(&mut self) -> bool {
        false
    }

    fn tell_back(&mut self, _back: ClockBack) {}

    fn tell_over(&mut self) {}

    fn attend(&mut self) {}

    fn is_rest_awaited(&self) -> bool {
        false
    }
}

//! What is odd between a plan's commands and their entries: the locks of flock(1), and the time
//! that timeout(1) allows.
use crate::wanted::Wanted;
use cs_civil::Bytes;
use cs_command::{Lock, asked_for, lock_of};
use cs_diagnostics::{Done, Findings, Span};
use cs_history::Mode;
use cs_plan::Plan;
use std::alloc::{AllocError, Global};

/// A command of a plan: its own lock, and what is declared of it.
#[derive(Drop)]
pub(crate) struct Held {
    pub(crate) number: u32,
    /// The file and the mode of the lock that it takes by flock(1).
    own: Option<(Bytes, Mode)>,
    /// Whether it neither takes a lock nor names a program that locks files.
    is_bare: bool,
    group: Option<u8>,
    mode: Mode,
    /// Its declared longest time in minutes.
    max: u16,
    /// The minutes that its own timeout(1) allows it; without one, `max`.
    allowed: u64,
    /// Whether it is the first whose entry gives a command of several lines, and no schedule.
    is_untimed: bool,
}

/// The commands of a plan, in the order of lines.
pub(crate) fn held_in(alloc: Global, plan: &Plan) -> Result<Vec<Held>, AllocError> {
    let mut all = Vec::new(alloc);
    let mut number = 0u16;
    for line in plan.crontab().lines() {
        let job = plan.job_at(number);
        let (own, is_bare) = match lock_of(alloc, line.command())? {
            Lock::Of(file, mode) => (Some((file, mode)), false),
            Lock::Absent => (None, true),
            Lock::Unread => (None, false),
        };
        all.push(Held {
            number: line.number(),
            own,
            is_bare,
            group: job.group(),
            mode: job.mode(),
            max: job.max(),
            allowed: asked_for(u64::from(job.max()), line.command()),
            is_untimed: plan.untimed() == Some(line.number()),
        })?;
        number = number.saturating_add(1);
    }
    Ok(all)
}

impl Held {
    /// Why its mode isn't that of its own lock, and what to set.
    fn other_mode(&self) -> Option<&'static str> {
        let Some((_, own)) = &self.own else {
            return None;
        };
        let is_same = own.waits() == self.mode.waits() && own.shares() == self.mode.shares();
        if self.mode.takes_lock() && is_same {
            return None;
        }
        match own {
            Mode::Wait => Some(
                "its entry doesn't wait for the lock as this flock does: set \"mode\" to \"wait\"",
            ),
            Mode::Shared => Some(
                "its entry doesn't share the lock as this flock does: set \"mode\" to \"shared\"",
            ),
            _ => Some(
                "its entry doesn't give up as flock -n does: set \"mode\" to \"try\" or \"skip\"",
            ),
        }
    }

    /// Whether a command above locks its file in another group, whether one above in its group
    /// locks another file, and whether any command takes a lock itself.
    fn beside(&self, all: &[Held]) -> (bool, bool, bool) {
        let (mut has_groups, mut has_files, mut is_any_locked) = (false, false, false);
        for other in all {
            is_any_locked = is_any_locked || other.own.is_some();
            match (self.group, other.group, &self.own, &other.own) {
                (Some(a), Some(b), Some((own, _)), Some((others, _)))
                    if other.number < self.number => {
                    let is_same = own.as_slice() == others.as_slice();
                    has_groups = has_groups || is_same && a != b;
                    has_files = has_files || !is_same && a == b;
                }
                _ => {}
            }
        }
        (has_groups, has_files, is_any_locked)
    }

    pub(crate) fn find_odd(
        &self,
        findings: &mut Findings,
        wanted: &Wanted<'_>,
        place: Span,
        all: &[Held],
    ) -> Done {
        let (has_own, has_group, other) = (
            self.own.is_some(),
            self.group.is_some(),
            self.other_mode(),
        );
        let (has_groups, has_files, is_any_locked) = self.beside(all);
        let oddities = [
            (
                has_own && !has_group,
                "OtherLock",
                "its entry has no group for this lock: add one, as 'cronsafe draft' does",
            ),
            (
                has_group && other.is_some(),
                "OtherLock",
                other.unwrap_or(""),
            ),
            (
                has_groups,
                "MixedLocks",
                "a command above locks the same file in another group: put both into one group",
            ),
            (
                has_files,
                "MixedLocks",
                "a command above in its group locks another file: have both lock one file",
            ),
            (
                is_any_locked && self.is_bare && self.mode.takes_lock(),
                "NoOwnLock",
                "only 'cronsafe run' takes its lock, while others use flock: put flock before it",
            ),
        ];
        for (is_so, name, why) in oddities {
            if is_so {
                wanted.odd(findings, place, name, why)?;
            }
        }
        let (max, allowed) = (self.max, self.allowed);
        if u64::from(max) < allowed {
            let front = format_args!(
                "its timeout allows {allowed} minutes, and its \"max\" is {max}"
            );
            let why = format_args!("{front}: raise \"max\", or shorten the timeout");
            wanted.odd(findings, place, "ShortMax", why)?;
        }
        if !self.is_untimed {
            return Ok(());
        }
        let why =
            "another line has this command: add \"when\" to its entry, as 'cronsafe draft' does";
        wanted.odd(findings, place, "NoWhen", why)
    }
}

/// Whether a startup command may take the file lock of a declared group.
pub(crate) fn may_take(alloc: Global, all: &[Held], command: &[u8]) -> Result<bool, AllocError> {
    if all.is_empty() {
        return Ok(false);
    }
    let lock = lock_of(alloc, command)?;
    for held in all {
        let may_be = match (&lock, &held.own, held.group) {
            (Lock::Of(file, _), Some((own, _)), Some(_)) => own.as_slice() == file.as_slice(),
            (Lock::Unread, Some(_), Some(_)) => true,
            _ => false,
        };
        if may_be {
            return Ok(true);
        }
    }
    Ok(false)
}

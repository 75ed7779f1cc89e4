//! Builds the text of an update.

use crate::added::is_locked;
use crate::given::job_time;
use crate::jobs::{add_kept_job, add_new_job};
use crate::kept::{is_new, left_behind, may_follow};
use crate::layout::{COMMA, Done, ENTRY, LINE, add, add_members, add_text, begin};
use crate::names::is_text;
use crate::old::{
    Bound, Old, Pair, bound_in, entry_at, has_line, item_of, items, pairs_of, text_of,
};
use crate::sheet::{Asked, add_kept, add_new, leave_out};
use crate::told::{ANACRONTAB, CRONTAB, remark, tell, tell_of, warn};
use cs_anacrontab::{Anacrontab, Job};
use cs_command::{Lock, lock_of, names_lock, own_lock};
use cs_crontab::{Line, When};
use cs_decl::Entries;
use cs_diagnostics::shown;
use cs_history::Mode;
use cs_plan::MAX_GROUPS;
use cs_retrace::max_of;
use cs_schedule::Schedule;
use serde_json::Value;
use std::alloc::{AllocError, Global};

/// Why a command that names a program that locks files has no lock.
const UNREAD: &str =
    " is declared without a lock: if it holds the lock of /run/x as long as it runs, \
    add \"group\": \"/run/x\", \"mode\": \"try\" to its entry, \
    and {\"name\": \"/run/x\", \"exclusive\": true} to \"groups\"";

/// Why a draft names no zone.
const TWICE: &str =
    " would start more than once in a minute when clocks go forward, so the draft keeps one offset \
    all year: make it due once then, or begin its minute or hour with *, and draft again";

/// Why a command that takes a lock has none: no group is left.
const FULL: &str = " is declared without a lock: its lock file would be group 65 of at most 64";

/// The new line that takes over the entry left behind, if the line may, and takes its lock.
fn follower_of(
    alloc: Global,
    bound: &[Bound<'_>],
    lines: &[Line],
    old: &Entries,
) -> Result<Option<Pair>, AllocError> {
    let Some(behind) = left_behind(lines, old) else {
        return Ok(None);
    };
    for (place, line) in lines.iter().enumerate() {
        if is_new(old, line) && may_follow(line, behind) {
            let lock = own_lock(alloc, line.command())?;
            if is_locked(&[], &lock, behind) {
                let command = &behind.name.command;
                let mut entries = bound.iter();
                return match entries.position(|entry| is_text(entry.command(), command)) {
                    Some(entry) => Ok(Some(Pair { line: place, entry })),
                    None => Ok(None),
                };
            }
        }
    }
    Ok(None)
}

/// The entries so far, the groups' names in order of first use, the warnings and notes, and how
/// many jobs have the default.
#[derive(Drop)]
struct Sheet {
    names: Vec<String>,
    groups: Vec<u8>,
    cron: Vec<u8>,
    anacron: Vec<u8>,
    left_out: Vec<u8>,
    told: Vec<u8>,
    defaulted: u64,
}

fn add_groups(alloc: Global, names: &mut Vec<String>, groups: &mut Vec<u8>, old: &Value) -> Done {
    for group in items(old, "groups") {
        if let Some(name) = text_of(group, "name") {
            begin(groups, ENTRY)?;
            let members = ["name", "exclusive", "note"];
            add_members(alloc, groups, COMMA, group, members.as_slice())?;
            groups.extend_from_slice(b"}")?;
            names.push(String::from_str(alloc, name)?)?;
        }
    }
    Ok(())
}

/// Whether the file has a group, which is added where there is room.
fn takes(
    alloc: Global,
    names: &mut Vec<String>,
    groups: &mut Vec<u8>,
    file: &str,
) -> Result<bool, AllocError> {
    for name in names.iter() {
        if name.as_str() == file {
            return Ok(true);
        }
    }
    if names.len() >= MAX_GROUPS {
        return Ok(false);
    }
    begin(groups, ENTRY)?;
    add_text(alloc, groups, "name", file)?;
    add(groups, COMMA, "exclusive", "true")?;
    groups.extend_from_slice(b"}")?;
    names.push(String::from_str(alloc, file)?)?;
    Ok(true)
}

impl Sheet {
    /// Adds a line without an old entry, in that group or in none; `reason` is a warning, if not
    /// empty. With a default, only a line with a lock or a given time gets an entry.
    fn add_locked(
        &mut self,
        alloc: Global,
        asked: Asked<'_>,
        old: Old<'_>,
        line: &Line,
        schedule: &Schedule,
        is_locked: bool,
        group: Option<(&str, Mode)>,
        reason: &str,
    ) -> Done {
        let (number, command) = (line.number(), line.command());
        let default = old.value.get("default");
        let is_own = is_locked || max_of(asked.given, u64::from(number)).is_some();
        if default.is_none() || is_own {
            if !old.is_draft {
                let command = shown(alloc, command)?;
                let (number, what) = (u64::from(number), " is new: ");
                let (told, command) = (&mut self.told, command.as_str());
                tell_of(alloc, told, "note: line ", number, what, command, "")?;
            }
            let (cron, told) = (&mut self.cron, &mut self.told);
            add_new(alloc, cron, told, asked, line, schedule, default, group)?;
        } else {
            self.defaulted = self.defaulted.saturating_add(1);
        }
        if reason.is_empty() {
            return Ok(());
        }
        warn(alloc, &mut self.told, CRONTAB, number, reason)
    }

    fn add_new(
        &mut self,
        alloc: Global,
        asked: Asked<'_>,
        old: Old<'_>,
        line: &Line,
        schedule: &Schedule,
    ) -> Done {
        match lock_of(alloc, line.command())? {
            Lock::Absent => self.add_locked(alloc, asked, old, line, schedule, false, None, ""),
            Lock::Unread => self.add_locked(alloc, asked, old, line, schedule, false, None, UNREAD),
            Lock::Of(file, mode) => {
                // plain words are ASCII
                let file = str::from_utf8(file.as_slice()).unwrap_or("");
                if takes(alloc, &mut self.names, &mut self.groups, file)? {
                    let group = Some((file, mode));
                    return self.add_locked(alloc, asked, old, line, schedule, true, group, "");
                }
                self.add_locked(alloc, asked, old, line, schedule, true, None, FULL)
            }
        }
    }

    fn add_line(
        &mut self,
        alloc: Global,
        asked: Asked<'_>,
        old: Old<'_>,
        line: &Line,
        bound: Option<Bound<'_>>,
    ) -> Done {
        let number = u64::from(line.number());
        let (front, what) = match (line.when(), bound) {
            (When::At(schedule), None) => {
                return self.add_new(alloc, asked, old, line, schedule);
            }
            (When::At(_), Some(bound)) => {
                if let Some(entry) = bound.entry {
                    return add_kept(
                        alloc,
                        &mut self.cron,
                        &mut self.told,
                        asked,
                        line,
                        bound,
                        entry,
                    );
                }
                ("note: line ", " is left out of the plan")
            }
            (When::Reboot, _) => {
                let what = " of the crontab is left out: no plan has startup jobs";
                ("warning: @reboot on line ", what)
            }
        };
        tell_of(alloc, &mut self.told, front, number, what, "", "")?;
        leave_out(
            alloc,
            &mut self.left_out,
            &mut self.told,
            asked.lines,
            line,
            bound,
        )
    }

    fn add_lines(
        &mut self,
        alloc: Global,
        asked: Asked<'_>,
        old: Old<'_>,
        bound: &[Bound<'_>],
        pairs: &[Pair],
    ) -> Done {
        for (place, line) in asked.lines.iter().enumerate() {
            let entry = match entry_at(pairs, place) {
                Some(entry) => bound.get(entry).copied(),
                None => None,
            };
            self.add_line(alloc, asked, old, line, entry)?;
        }
        Ok(())
    }

    /// Adds a job's entry. A new job has none if there is a default and no given time.
    fn add_job(
        &mut self,
        alloc: Global,
        asked: Asked<'_>,
        old: Old<'_>,
        job: &Job,
        identifier: &str,
    ) -> Done {
        let entry = item_of(items(old.value, "anacron"), "id", identifier.as_bytes());
        let time = job_time(asked.given, job);
        if entry.is_some() || time.is_some() || old.value.get("default").is_none() {
            begin(&mut self.anacron, ENTRY)?;
            add_text(alloc, &mut self.anacron, "id", identifier)?;
            let (anacron, told) = (&mut self.anacron, &mut self.told);
            match entry {
                Some(entry) => add_kept_job(alloc, anacron, told, old, job, time, entry)?,
                None => add_new_job(alloc, anacron, told, old, job, time, asked.max)?,
            }
            self.anacron.extend_from_slice(b"}")?;
        } else {
            self.defaulted = self.defaulted.saturating_add(1);
        }
        if entry.is_none() && names_lock(job.command()) {
            let reason = " is declared without a lock: anacron jobs have no mode";
            return warn(alloc, &mut self.told, ANACRONTAB, job.number(), reason);
        }
        Ok(())
    }

    fn add_jobs(&mut self, alloc: Global, asked: Asked<'_>, old: Old<'_>, jobs: &[Job]) -> Done {
        for job in jobs {
            // identifiers of a table that was read are UTF-8
            if let Ok(identifier) = str::from_utf8(job.identifier()) {
                self.add_job(alloc, asked, old, job, identifier)?;
            }
        }
        Ok(())
    }
}

/// Notes old entries without a line.
fn tell_gone(alloc: Global, told: &mut Vec<u8>, bound: &[Bound<'_>], pairs: &[Pair]) -> Done {
    for (i, entry) in bound.iter().enumerate() {
        if !has_line(pairs, i) {
            let command = shown(alloc, entry.command())?;
            tell(told, "note: gone: ", command.as_str(), "")?;
        }
    }
    Ok(())
}

/// Notes old entries of anacron jobs that are gone.
fn tell_gone_jobs(alloc: Global, told: &mut Vec<u8>, jobs: &[Job], old: &Value) -> Done {
    for entry in items(old, "anacron") {
        if let Some(identifier) = text_of(entry, "id")
            && !jobs
                .iter()
                .any(|job| job.identifier() == identifier.as_bytes())
        {
            let job = shown(alloc, identifier.as_bytes())?;
            tell(told, "note: job ", job.as_str(), " is gone")?;
        }
    }
    Ok(())
}

fn tell_defaulted(alloc: Global, told: &mut Vec<u8>, defaulted: u64) -> Done {
    match defaulted {
        0 => Ok(()),
        1 => tell(told, "note: ", "1 job without an entry has the default", ""),
        jobs => {
            let have = " jobs without an entry have the default";
            tell_of(alloc, told, "note: ", jobs, have, "", "")
        }
    }
}

/// Notes that a draft ignores the hours of the anacrontab.
fn tell_hours(told: &mut Vec<u8>, jobs: &Anacrontab) -> Done {
    for setting in jobs.settings() {
        if setting.name() == b"START_HOURS_RANGE".as_slice() {
            let reason = ", since Debian's anacron doesn't know it: all hours are";
            return tell(told, "note: ", "START_HOURS_RANGE is not declared", reason);
        }
    }
    Ok(())
}

/// Copies the members that aren't lists.
fn add_front(alloc: Global, text: &mut Vec<u8>, old: &Value) -> Done {
    let names = ["note", "capacity", "offset", "zone", "hours", "pass"];
    add_members(alloc, text, LINE, old, names.as_slice())?;
    if let Some(default) = old.get("default") {
        add(text, LINE, "default", "{")?;
        let names = ["max", "weight", "note"];
        add_members(alloc, text, COMMA, default, names.as_slice())?;
        text.extend_from_slice(b"}")?;
    }
    Ok(())
}

/// Adds a list, unless it is empty.
fn add_list(text: &mut Vec<u8>, name: &str, list: &[u8]) -> Done {
    if list.is_empty() {
        return Ok(());
    }
    add(text, LINE, name, "[\n    ")?;
    text.extend_from_slice(list)?;
    text.extend_from_slice(b"\n  ]")
}

fn whole(alloc: Global, old: &Value, sheet: &Sheet) -> Result<Vec<u8>, AllocError> {
    let mut text = Vec::from_slice(alloc, b"{\n  ".as_slice())?;
    add_front(alloc, &mut text, old)?;
    add_list(&mut text, "groups", sheet.groups.as_slice())?;
    add_list(&mut text, "cron", sheet.cron.as_slice())?;
    add_list(&mut text, "anacron", sheet.anacron.as_slice())?;
    add_list(&mut text, "left_out", sheet.left_out.as_slice())?;
    text.extend_from_slice(b"\n}\n")?;
    Ok(text)
}

/// The new declarations, and the warnings and notes. The remarks are the text of longest times.
pub(crate) fn updated_text(
    alloc: Global,
    asked: Asked<'_>,
    jobs: &Anacrontab,
    old: Old<'_>,
    remarks: &[u8],
) -> Result<(Vec<u8>, Vec<u8>), AllocError> {
    let mut sheet = Sheet {
        names: Vec::new(alloc),
        groups: Vec::new(alloc),
        cron: Vec::new(alloc),
        anacron: Vec::new(alloc),
        left_out: Vec::new(alloc),
        told: Vec::new(alloc),
        defaulted: 0,
    };
    add_groups(alloc, &mut sheet.names, &mut sheet.groups, old.value)?;
    let bound = bound_in(alloc, &mut sheet.told, old)?;
    let mut pairs = pairs_of(alloc, bound.as_slice(), asked.lines)?;
    if let Some(pair) = follower_of(alloc, bound.as_slice(), asked.lines, old.entries)? {
        pairs.push(pair)?;
    }
    remark(&mut sheet.told, remarks)?;
    if old.is_draft {
        tell_hours(&mut sheet.told, jobs)?;
    }
    if let Some(number) = old.twice {
        warn(alloc, &mut sheet.told, CRONTAB, number, TWICE)?;
    }
    sheet.add_lines(alloc, asked, old, bound.as_slice(), pairs.as_slice())?;
    tell_gone(alloc, &mut sheet.told, bound.as_slice(), pairs.as_slice())?;
    sheet.add_jobs(alloc, asked, old, jobs.lines())?;
    tell_gone_jobs(alloc, &mut sheet.told, jobs.lines(), old.value)?;
    tell_defaulted(alloc, &mut sheet.told, sheet.defaulted)?;
    let text = whole(alloc, old.value, &sheet)?;
    Ok((text, sheet.told))
}

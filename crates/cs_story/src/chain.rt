//! How other runs hold the lock of a group without a gap, so that a run gets it late.
use crate::part::{Part, is_of, part_of};
use crate::wanted::{MINUTES_OF_DAY, Wanted, is_wanted, task_of};
use cs_profile::{Calendar, Due, Facts};
use std::alloc::{AllocError, Global};

/// How many days before its end a chain may begin.
const MAX_DAYS: u64 = 8;

/// Other runs that hold the lock of a group one after the other, from one civil minute to another,
/// in which the last of them ends and the wanted ones start.
#[derive(Clone, Copy)]
pub(crate) struct Chain {
    pub group: u8,
    pub from: u64,
    pub to: u64,
}

/// A run of mode try in a chain. Those that hold the lock before it end in the minute in which it
/// is due, so that it gets the lock.
#[derive(Clone, Copy)]
pub(crate) struct Tried {
    pub group: u8,
    pub job: u16,
    pub due: u64,
}

#[derive(Drop)]
pub(crate) struct Chains {
    pub list: Vec<Chain>,
    /// By the minute at which they are due.
    pub tried: Vec<Tried>,
}

/// What is wanted of a chain: that the lock is held when the first wanted run is due, and until the
/// last of them is to start.
#[derive(Clone, Copy)]
struct Hold {
    group: u8,
    due: u64,
    start: u64,
    // Whether the wanted runs share the lock, so that others that share it don't keep it from them.
    is_shared: bool,
}

fn add_hold(holds: &mut Vec<Hold>, hold: Hold) -> Result<(), AllocError> {
    for own in holds.iter_mut() {
        if own.group == hold.group {
            own.due = own.due.min(hold.due);
            own.start = own.start.max(hold.start);
            own.is_shared = own.is_shared && hold.is_shared;
            return Ok(());
        }
    }
    holds.push(hold)?;
    Ok(())
}

fn holds_for(alloc: Global, facts: &Facts, runs: &[Wanted]) -> Result<Vec<Hold>, AllocError> {
    let mut holds: Vec<Hold> = Vec::new(alloc);
    for run in runs {
        let group = match task_of(facts, run.job) {
            Some(own) if run.queues() => own.group,
            _ => None,
        };
        if let Some(group) = group {
            let hold = Hold {
                group,
                due: run.due,
                start: run.start,
                is_shared: part_of(facts, run.job) == Some(Part::Sharer),
            };
            add_hold(&mut holds, hold)?;
        }
    }
    Ok(holds)
}

/// By how many minutes the runs that are due at one minute put off the end of a chain.
#[derive(Clone, Copy)]
struct Link {
    // One after the other, each less the minute in which it ends.
    alone: u64,
    // The longest of those that share the lock.
    shared: u64,
    // The longest of mode try, which comes before them or not at all, and its job.
    tried: u64,
    job: u16,
}

impl Link {
    fn add(&mut self, part: Part, is_try: bool, job: u16, minutes: u64) {
        if is_try {
            if minutes > self.tried {
                self.tried = minutes;
                self.job = job;
            }
            return;
        }
        match part {
            Part::Holder => self.alone = self.alone.saturating_add(minutes),
            Part::Sharer => self.shared = self.shared.max(minutes),
            Part::Free | Part::CatchUp => {}
        }
    }

    fn minutes(self, is_shared: bool) -> u64 {
        if is_shared {
            self.alone
        } else {
            self.alone.saturating_add(self.shared)
        }
    }
}

/// Adds the runs of a job on a day, except the wanted ones.
fn add_job(links: &mut Vec<Link>, facts: &Facts, runs: &[Wanted], due: Due, midnight: u64) {
    let Some(own) = task_of(facts, due.job) else {
        return;
    };
    let Some(part) = part_of(facts, due.job) else {
        return;
    };
    let minutes = u64::from(own.max.saturating_sub(1));
    for minute in own.minutes(due) {
        if !is_wanted(runs, due.job, midnight.saturating_add(u64::from(*minute))) {
            if let Some(link) = links.get_mut(usize::from(*minute)) {
                link.add(part, own.is_try(), due.job, minutes);
            }
        }
    }
}

fn links_on(
    alloc: Global,
    facts: &Facts,
    runs: &[Wanted],
    due: &[Due],
    group: u8,
    midnight: u64,
) -> Result<Vec<Link>, AllocError> {
    let none = Link {
        alone: 0,
        shared: 0,
        tried: 0,
        job: 0,
    };
    let mut links: Vec<Link> = Vec::from_elem(alloc, none, MINUTES_OF_DAY as usize)?;
    for due in due {
        if is_of(facts, due.job, group) {
            add_job(&mut links, facts, runs, *due, midnight);
        }
    }
    Ok(links)
}

/// How far a chain was followed back: until when the lock has to be held by earlier runs, and where
/// the chain can begin.
#[derive(Clone, Copy)]
struct Back {
    until: u64,
    begins: Option<u64>,
}

impl Back {
    /// Whether a run of mode try that is due at an earlier minute has to hold the lock.
    fn wants_tried(self, hold: Hold, minute: u64, link: Link) -> bool {
        let until = self.until.saturating_sub(link.minutes(hold.is_shared));
        self.begins.is_none()
            && minute < hold.start
            && minute < until
            && until <= minute.saturating_add(link.tried)
    }

    /// Follows the chain back over a minute. It begins where the runs of the minute need no others.
    fn over(self, hold: Hold, minute: u64, link: Link) -> Back {
        let minutes = link.minutes(hold.is_shared);
        let is_tried = self.wants_tried(hold, minute, link);
        if self.begins.is_some() || minute >= hold.start || (minutes == 0 && !is_tried) {
            return self;
        }
        let until = if is_tried {
            minute
        } else {
            self.until.saturating_sub(minutes)
        };
        if minute <= hold.due && until <= minute {
            return Back {
                until,
                begins: Some(minute),
            };
        }
        Back {
            until: until.max(minute),
            begins: None,
        }
    }

    fn over_day(
        self,
        hold: Hold,
        midnight: u64,
        links: &[Link],
        tried: &mut Vec<Tried>,
    ) -> Result<Back, AllocError> {
        let mut back = self;
        for (minute, link) in links.iter().enumerate().rev() {
            let due = midnight.saturating_add(minute as u64);
            if back.wants_tried(hold, due, *link) {
                tried.push(Tried {
                    group: hold.group,
                    job: link.job,
                    due,
                })?;
            }
            back = back.over(hold, due, *link);
        }
        Ok(back)
    }
}

fn due_on<'a>(facts: &'a Facts, calendar: &Calendar, day: u64) -> Option<&'a [Due]> {
    let profile = calendar.profile_on(day)?;
    match facts.due().get(usize::from(profile)) {
        Some(due) => Some(due.as_slice()),
        None => None,
    }
}

/// The chain that begins last. Its runs of mode try are added to `tried`.
fn chain_for(
    alloc: Global,
    facts: &Facts,
    calendar: &Calendar,
    runs: &[Wanted],
    hold: Hold,
    tried: &mut Vec<Tried>,
) -> Result<Option<Chain>, AllocError> {
    let mut back = Back {
        until: hold.start,
        begins: None,
    };
    let last = hold.start / MINUTES_OF_DAY;
    for days in 0..=MAX_DAYS {
        let day = last.saturating_sub(days);
        let midnight = day.saturating_mul(MINUTES_OF_DAY);
        if let (None, Some(due)) = (back.begins, due_on(facts, calendar, day)) {
            let links = links_on(alloc, facts, runs, due, hold.group, midnight)?;
            back = back.over_day(hold, midnight, links.as_slice(), tried)?;
        }
    }
    Ok(match back.begins {
        Some(from) => Some(Chain {
            group: hold.group,
            from,
            to: hold.start,
        }),
        None => None,
    })
}

/// The chains by which these runs start as late as they are to, one for each group in which one
/// waits. `None` if one can't be had.
pub(crate) fn chains_for(
    alloc: Global,
    facts: &Facts,
    calendar: &Calendar,
    runs: &[Wanted],
) -> Result<Option<Chains>, AllocError> {
    let mut list: Vec<Chain> = Vec::new(alloc);
    let mut tried: Vec<Tried> = Vec::new(alloc);
    for hold in holds_for(alloc, facts, runs)?.as_slice() {
        match chain_for(alloc, facts, calendar, runs, *hold, &mut tried)? {
            Some(chain) => list.push(chain)?,
            None => return Ok(None),
        }
    }
    tried.sort_by_key(|it| it.due)?;
    Ok(Some(Chains { list, tried }))
}

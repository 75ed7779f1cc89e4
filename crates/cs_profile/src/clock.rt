use cs_civil::DayKind;
use cs_zone::{Jump, Zone, march_day, wall_on};
use std::alloc::{AllocError, Global};

/// What the zone's clock shows on days of each kind, by the kind's number.
#[derive(Drop)]
pub(crate) struct Clock {
    pub(crate) zone: Zone,
    /// 0 where it shows the plan's clock, and 1 where it shows another one. Days near a jump have
    /// other numbers, by the jump and how many days they are from it.
    groups: Vec<u8>,
    /// The kind of the other day that it shows in some minutes, where it isn't the plan's clock.
    others: Vec<u16>,
}

/// How many days it is since the day before a jump, if that is at most two.
fn days_since(jump: Jump, kind: DayKind) -> Option<u8> {
    let since = (kind.dow() + 8 - jump.weekday()) % 7;
    let first = u32::from(jump.earliest());
    let day = (march_day(kind) + 1).checked_sub(u32::from(since))?;
    if since <= 2 && first <= day && day <= first + 6 {
        Some(since)
    } else {
        None
    }
}

fn group_of(zone: Zone, kind: DayKind) -> u8 {
    if zone.saving() == 0 {
        return 0;
    }
    if let Some(since) = days_since(zone.leaves(), kind) {
        return since.saturating_add(2);
    }
    if let Some(since) = days_since(zone.returns(), kind) {
        return since.saturating_add(5);
    }
    u8::from(wall_on(zone, kind, 0) != 1_440 * march_day(kind))
}

/// The kind after each kind if the zone's clock is ahead of the plan's, else the one before.
fn others(alloc: Global, zone: Zone, successors: &[[u16; 2]]) -> Result<Vec<u16>, AllocError> {
    let mut others: Vec<u16> = Vec::from_elem(alloc, 0, successors.len())?;
    for (kind, next) in successors.iter().enumerate() {
        let kind = u16::try_from(kind).unwrap_or(0);
        let (from, to) = if zone.is_ahead() {
            (kind, next[0])
        } else {
            (next[0], kind)
        };
        if let Some(other) = others.get_mut(usize::from(from)) {
            *other = to;
        }
    }
    Ok(others)
}

fn is_set(days: &[bool], kind: usize) -> bool {
    days.get(kind).copied().unwrap_or(false)
}

impl Clock {
    pub(crate) fn of(
        alloc: Global,
        zone: Zone,
        kinds: &[DayKind],
        successors: &[[u16; 2]],
    ) -> Result<Clock, AllocError> {
        let mut groups = Vec::with_capacity(alloc, kinds.len())?;
        for kind in kinds {
            groups.push(group_of(zone, *kind))?;
        }
        Ok(Clock {
            zone,
            groups,
            others: others(alloc, zone, successors)?,
        })
    }

    /// A number below 32 for days of a kind, where a job's fields list `days`. On days with the
    /// same number it is due at the same minutes.
    pub(crate) fn sort_of(&self, days: &[bool], kind: usize) -> usize {
        let is_listed = usize::from(is_set(days, kind));
        let group = self.groups.get(kind).copied().unwrap_or(0);
        if group == 0 {
            return is_listed;
        }
        let other = self.others.get(kind).copied().unwrap_or(0);
        let is_other = usize::from(is_set(days, usize::from(other)));
        4 * usize::from(group) + 2 * is_other + is_listed
    }
}

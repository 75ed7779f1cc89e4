ghost use Rattle.std.specs.Prelude.{◌≤◌, length};

use crate::maker::Maker;
use crate::stretches::{Stretches, days_of, stretches_by};
use cs_certify::{Classing, certificate, stretch};
use cs_civil::Sequence;
use cs_claims::{Certificate, MAX_CERTIFICATE, MAX_CLASSES, Stretch, least_text};
use cs_classes::occupied;
use cs_profile::Facts;
use cs_windows::{Occupied, windows_on};
use std::alloc::{AllocError, Global};

/// The fewest bytes that an entry takes in a text, with its comma or brackets.
const LEAST_ENTRY: u64 = 8;

/// How many windows begin on a day of this class.
fn windows_begun(facts: &Facts, classing: &Classing, class: u16) -> u64 {
    let Some(kind) = classing.firsts.get(usize::from(class)) else {
        return 0;
    };
    let mut begun: u64 = 0;
    for due in facts.due_on(*kind) {
        if let Some(task) = facts.tasks().get(usize::from(due.job)) {
            begun = begun.saturating_add(task.minutes(*due).len() as u64);
        }
    }
    begun
}

/// The fewest bytes of the entries of these stretches: each lists what begins on its last day.
fn least_entries(facts: &Facts, classing: &Classing, in_use: &Stretches) -> u64 {
    let mut least: u64 = 0;
    for (classes, _) in in_use {
        if let Some(last) = classes.last() {
            let begun = windows_begun(facts, classing, *last);
            least = least.saturating_add(begun.saturating_mul(LEAST_ENTRY));
        }
    }
    least
}

fn with_windows(
    alloc: Global,
    occupied: &[Occupied<'_>],
    in_use: &Stretches,
) -> Result<Sequence<Stretch>, AllocError>
    requires { length occupied.now ≤ 320 }
{
    let mut listed = Sequence::new(alloc);
    for (classes, kinds) in in_use {
        let windows = windows_on(alloc, occupied, kinds.as_slice())?;
        listed.push(stretch(alloc, classes.as_slice(), windows.as_slice())?)?;
    }
    Ok(listed)
}

impl Maker<'_> {
    /// Returns the certificate of the least bounds that lists their windows, of version 1 or 2, not
    /// yet checked. None if there are no bounds, or no file can hold it. The only error is out of
    /// memory.
    pub fn listed(&self, alloc: Global) -> Result<Option<Certificate>, AllocError> {
        let Some(bounds) = &self.bounds else {
            return Ok(None);
        };
        let classing = &bounds.classing;
        if classing.firsts.len() > MAX_CLASSES {
            return Ok(None);
        }
        let reaches = bounds.reaches.as_slice();
        let occupied = occupied(alloc, self.plan, reaches)?;
        let days = days_of(occupied.as_slice());
        let in_use = stretches_by(alloc, days, classing.class_of.as_slice())?;
        if least_entries(&self.facts, classing, &in_use) >= MAX_CERTIFICATE as u64 {
            return Ok(None);
        }
        let stretches = with_windows(alloc, occupied.as_slice(), &in_use)?;
        match certificate(alloc, &self.facts, classing, stretches, reaches)? {
            Ok(listed) if least_text(&listed) < MAX_CERTIFICATE as u64 => Ok(Some(listed)),
            _ => Ok(None),
        }
    }
}

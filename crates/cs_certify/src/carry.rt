//! What may be left of earlier days when a day begins: the least that no successive days exceed.
use crate::gains::Gains;
use crate::numbers::{minutes_at, number_at};
use cs_profile::Facts;
use std::alloc::{AllocError, Global};

/// How often all kinds of days are gone through. If that doesn't settle what is left, the lock is
/// never free for more than six days, so that a run waits for it longer than three.
const ROUNDS: u8 = 9;

/// If more minutes than this are left, some run waits longer than three days.
const MOST_LEFT: u32 = 12_960;

#[derive(Drop)]
struct Carries<'a> {
    facts: &'a Facts,
    gains: &'a Gains,
    /// The place of each kind of day, by number. Kinds with one place are taken to be alike.
    places: &'a [u16],
    /// What is left when a day begins, by place.
    left: Vec<u32>,
}

impl<'a> Carries<'a> {
    fn before(&self, kind: usize) -> u32 {
        minutes_at(
            self.left.as_slice(),
            usize::from(number_at(self.places, kind)),
        )
    }

    fn after(&self, kind: usize) -> u32 {
        match self.gains.on(kind) {
            Some(arrivals) => arrivals.left(self.before(kind)),
            None => 0,
        }
    }

    /// Passes what each kind of day leaves on to the kinds that can come next. True if that is more
    /// than was known.
    fn go_on(&mut self) -> bool {
        let mut is_more = false;
        for (kind, next) in self.facts.successors().iter().enumerate() {
            let left = self.after(kind);
            for kind in next {
                let place = number_at(self.places, usize::from(*kind));
                if let Some(before) = self.left.get_mut(usize::from(place)) {
                    is_more = is_more || *before < left;
                    *before = left.max(*before);
                }
            }
        }
        is_more
    }
}

/// The least that may be left when days of each kind begin, by the kind's number, where kinds with
/// one place are taken to be alike. Empty if nothing is ever left. `None` if more than 12,960
/// minutes may be left, or ever more.
pub(crate) fn least_carries(
    alloc: Global,
    facts: &Facts,
    gains: &Gains,
    places: &[u16],
) -> Result<Option<Vec<u32>>, AllocError> {
    let mut carries = Carries {
        facts,
        gains,
        places,
        left: Vec::from_elem(alloc, 0, facts.kinds().len())?,
    };
    if !carries.go_on() {
        return Ok(Some(Vec::new(alloc)));
    }
    let mut is_settled = false;
    for _ in 1..ROUNDS {
        is_settled = is_settled || !carries.go_on();
    }
    if !is_settled {
        return Ok(None);
    }
    let mut by_kind = Vec::new(alloc);
    for kind in 0..places.len() {
        let left = carries.before(kind);
        if left > MOST_LEFT {
            return Ok(None);
        }
        by_kind.push(left)?;
    }
    Ok(Some(by_kind))
}

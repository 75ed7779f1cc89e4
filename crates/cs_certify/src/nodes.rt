use crate::lock::Lock;
use crate::numbers::{first_places, told_apart};
use cs_profile::Facts;
use std::alloc::{AllocError, Global};

/// The classes of a certificate to be.
#[derive(Drop)]
pub struct Classing {
    /// The class of each kind of day, by the kind's number.
    pub class_of: Vec<u16>,
    /// The number of the first kind of each class.
    pub firsts: Vec<usize>,
    /// What still waits for the locks of groups, by group.
    pub(crate) locks: Vec<Lock>,
}

impl Classing {
    /// The classes of days of one profile at whose start as much is left of earlier days: the
    /// profiles, if nothing else tells days apart.
    pub(crate) fn of(
        alloc: Global,
        facts: &Facts,
        locks: Vec<Lock>,
    ) -> Result<Classing, AllocError> {
        let mut class_of = Vec::from_slice(alloc, facts.profiles())?;
        for lock in locks.as_slice() {
            class_of = told_apart(alloc, class_of.as_slice(), lock.carries.as_slice())?;
        }
        Ok(Classing {
            firsts: first_places(alloc, class_of.as_slice())?,
            class_of,
            locks,
        })
    }
}

use crate::facts::Facts;
use cs_civil::{Day, kind_number, kind_of};
use std::alloc::{AllocError, Global};

/// 2024-01-01, counted from 1970-01-01.
const NEW_YEAR: u64 = 19_723;

/// How many days of a calendar are before 2024-01-01, so that what goes on for some days is seen
/// from its start.
pub const DAYS_BEFORE: usize = 10;

const FIRST_DAY: u64 = NEW_YEAR - DAYS_BEFORE as u64;

/// 28 years and four days: in these each day has each weekday, and successive days are all that
/// they can be.
const DAYS_OF_28_YEARS: u64 = 10_231;

/// The profiles of civil days, from shortly before 2024-01-01 on, for 28 years.
#[derive(Drop)]
pub struct Calendar {
    profiles: Vec<u16>,
}

impl Calendar {
    /// Returns the calendar of a plan. The only error is out of memory.
    pub fn of(alloc: Global, facts: &Facts) -> Result<Calendar, AllocError> {
        let mut profiles = Vec::new(alloc);
        for number in FIRST_DAY..(NEW_YEAR + DAYS_OF_28_YEARS) {
            let profile = match Day::new(number) {
                Some(day) => facts.profiles().get(usize::from(kind_number(kind_of(day)))),
                None => None,
            };
            profiles.push(profile.copied().unwrap_or(0))?;
        }
        Ok(Calendar { profiles })
    }

    /// Returns the first of the civil days, counted from 1970-01-01.
    pub fn first_day(&self) -> u64 {
        FIRST_DAY
    }

    /// Returns the profiles of the civil days, from the first on.
    pub fn profiles(&self) -> &[u16] {
        self.profiles.as_slice()
    }

    /// Returns the civil day at a place of the calendar, counted from 1970-01-01.
    pub fn day_at(&self, place: usize) -> u64 {
        FIRST_DAY.saturating_add(place as u64)
    }

    /// Returns the profile of a civil day, counted from 1970-01-01, if the calendar has it.
    pub fn profile_on(&self, day: u64) -> Option<u16> {
        let place = day.checked_sub(FIRST_DAY)?;
        self.profiles.get(place as usize).copied()
    }
}

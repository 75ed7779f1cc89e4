ghost use Rattle.std.specs.Prelude.{◌≡◌, ◌<◌, ◌≤◌, IfOk, length, map, take};
ghost use Rattle.cs_classes.specs.Said.{said};
ghost use Rattle.cs_check.specs.ClassDays.{AreClassDays, IsBasis, IsClassDay};
ghost use Rattle.cs_check.specs.Stretches.{IsCase, IsCaseOf, claim_of, classes_in, windows_in};
ghost use Rattle.cs_classes.specs.Used.{IsInUse, seen};
ghost use Rattle.cs_civil.specs.Calendar.{first_minute, last_minute};
ghost use Rattle.cs_classes.specs.Claim.{class_at};
ghost use Rattle.cs_theorem.specs.Accepted.{nth};
ghost use Rattle.cs_theorem.specs.Faults.{minute_of};
ghost use Rattle.cs_windows.specs.Window.{IsRising};

use crate::class_day::ClassDay;
use crate::due::Basis;
use cs_civil::Minute;
use cs_claims::{Class, reach_of};
use cs_classes::{Claim, UsedStretch, last_day, stretch_length};
use cs_overlap::Roles;
use cs_plan::Plan;
use cs_wait::Backlog;
use cs_windows::{Occupied, Window, windows_on};
use std::alloc::{AllocError, Global};

/// What each stretch needs of a plan and a certificate whose classes have their kinds' due minutes.
#[derive(Drop)]
pub(crate) struct Case<'a> {
    pub(crate) plan: &'a Plan,
    pub(crate) claim: &'a Claim<'a>,
    /// How many days a stretch has, from 2 to 4.
    pub(crate) days: u8,
    pub(crate) occupied: Vec<Occupied<'a>>,
    pub(crate) roles: Roles,
    /// By the number of the class.
    pub(crate) class_days: Vec<ClassDay>,
    /// The bound of groups that have none.
    pub(crate) none: &'a Backlog,
}

impl<'a> Case<'a> {
    #[tactic(auto, using(crate::proofs::Using::days_range))]
    pub(crate) fn days(&self) -> usize
        requires { IsCase self.now }
        ensures value { result ≡ self.now.days }
        ensures range { (2 ≤ result) × (result ≤ 4) }
    {
        usize::from(self.days)
    }

    pub(crate) fn reach_of(&self, number: usize) -> Option<u16>
        ensures { result ≡ (claim_of self.now).reach number }
    {
        reach_of(self.claim.reach(), number)
    }

    #[tactic(auto, using(crate::proofs::Using::long_as_kinds))]
    pub(crate) fn class_on(&self, used: &UsedStretch<'_>, place: usize) -> &'a Class
        requires case { IsCase self.now }
        requires in_use { IsInUse (said self.now.claim.now) self.now.days used.now }
        requires within { place < self.now.days }
        ensures { result.now
            ≡ class_at (said self.now.claim.now).classes (nth used.now.of.now place) }
    {
        let number = used.of[place];
        &self.claim.classes()[number as usize]
    }

    /// The classes of the days of a stretch in use, filled up to four with the first of them.
    pub(crate) fn classes_of(&self, used: &UsedStretch<'_>) -> [&'a Class; 4]
        requires case { IsCase self.now }
        requires in_use { IsInUse (said self.now.claim.now) self.now.days used.now }
        ensures long { length result ≡ 4 }
        ensures value { map (λ class. class.now) (take self.now.days result)
            ≡ classes_in self.now used.now }
    {
        let days = self.days();
        let mut classes = [self.class_on(used, 0); 4];
        for place in 0..days {
            classes[place] = self.class_on(used, place);
        }
        classes
    }

    pub(crate) fn day_on(&self, used: &UsedStretch<'_>, place: usize) -> &ClassDay
        requires case { IsCase self.now }
        requires in_use { IsInUse (said self.now.claim.now) self.now.days used.now }
        requires within { place < self.now.days }
        ensures { IsClassDay self.now.plan.now (said self.now.claim.now)
            (nth used.now.of.now place) result.now }
    {
        let number = used.of[place];
        &self.class_days.as_slice()[number as usize]
    }

    pub(crate) fn windows(
        &self,
        alloc: Global,
        used: &UsedStretch<'_>,
    ) -> Result<Vec<Window>, AllocError>
        requires case { IsCase self.now }
        requires in_use { IsInUse (said self.now.claim.now) self.now.days used.now }
        ensures value { IfOk result (λ windows. windows.items ≡ windows_in self.now used.now) }
        ensures rising { IfOk result (λ windows. IsRising windows.items) }
    {
        let _days = self.days();
        windows_on(alloc, self.occupied.as_slice(), used.kinds.as_slice())
    }
}

pub(crate) fn case_of<'a>(
    alloc: Global,
    basis: Basis<'a>,
    class_days: Vec<ClassDay>,
) -> Result<Case<'a>, AllocError>
    requires basis { IsBasis basis }
    requires days { AreClassDays basis.plan.now (said basis.claim.now) class_days.items }
    ensures { IfOk result (IsCaseOf basis.entry.plan.now (said basis.entry.claim.now)) }
{
    Ok(Case {
        plan: basis.plan,
        claim: basis.claim,
        days: stretch_length(basis.occupied.as_slice()),
        roles: Roles::of(alloc, basis.plan)?,
        occupied: basis.occupied,
        class_days,
        none: basis.none,
    })
}

pub(crate) fn civil(number: u64) -> Minute
    requires { (first_minute ≤ number) × (number ≤ last_minute) }
    ensures { result ≡ number }
{
    match Minute::new(number) {
        Some(minute) => minute,
        None => unreachable!(),
    }
}

/// The civil minute at a minute of the day, on the first day that ends a stretch of such days.
pub(crate) fn minute_on(case: &Case<'_>, used: &UsedStretch<'_>, minute: u16) -> u64
    requires { IsCase case.now }
    ensures value { result
        ≡ minute_of (claim_of case.now) case.now.days (seen used.now) minute }
    ensures range { (2880 ≤ result) × (result < 20000000) }
{
    let _days = case.days();
    let last = last_day(case.claim, used.of, case.days);
    1_440 * u64::from(last) + u64::from(minute)
}

ghost use Rattle.std.specs.Prelude.{◌≡◌, [], ℕ, ◌<◌, ◌||◌, ◌&&◌, IfOk, length, nat_eq, slice_index_or};
ghost use Rattle.std.specs.List.{list_any};
ghost use Rattle.cs_daytree.specs.Tree.{has as is_listed};
ghost use Rattle.cs_claims.specs.Certificate.{is_due_in};
ghost use Rattle.cs_classes.specs.DayMinutes.{AreDueSets, AreRising};
ghost use Rattle.cs_schedule.specs.Numbers.{has};

use cs_claims::{Class, DueList};
use cs_schedule::MinuteSet;
use std::alloc::{AllocError, Global};

fn add_minute(minutes: &mut MinuteSet, minute: u16)
    ensures has { (m : ℕ) → m < 1440 → has minutes.new m ≡ (nat_eq minute m || has minutes.old m) }
    ensures rising { AreRising minutes.old → AreRising minutes.new }
{
    if minute < 1_440 {
        minutes.insert(minute);
    }
}

fn add_minutes(minutes: &mut MinuteSet, listed: &[u16])
    ensures has { (m : ℕ) → m < 1440
        → has minutes.new m ≡ (has minutes.old m || is_listed listed.now m) }
    ensures rising { AreRising minutes.old → AreRising minutes.new }
{
    for minute in listed {
        add_minute(minutes, *minute);
    }
}

fn add_list(minutes: &mut MinuteSet, list: &DueList, job: u16)
    requires { AreRising minutes.old }
    ensures has { (m : ℕ) → m < 1440
        → has minutes.new m
        ≡ (has minutes.old m || (nat_eq list.now.job job && is_listed list.now.minutes m)) }
    ensures rising { AreRising minutes.new }
{
    if list.job == job {
        add_minutes(minutes, list.minutes.as_slice());
    }
}

fn minutes_among(due: &[DueList], job: u16) -> MinuteSet
    ensures has { (m : ℕ) → m < 1440
        → has result m ≡ list_any (λ d. nat_eq d.job job && is_listed d.minutes m) due.now }
    ensures rising { AreRising result }
{
    let mut minutes = MinuteSet::new();
    for list in due {
        add_list(&mut minutes, list, job);
    }
    minutes
}

pub(crate) fn due_in_order(class: &Class, job: u16) -> MinuteSet
    ensures due { (m : ℕ) → m < 1440 → has result m ≡ is_due_in class.now job m }
    ensures rising { AreRising result }
{
    minutes_among(class.due.as_slice(), job)
}

fn empty_sets(alloc: Global, jobs: usize) -> Result<Vec<MinuteSet>, AllocError>
    ensures long { IfOk result (λ sets. length sets.items ≡ jobs) }
    ensures each { IfOk result (λ sets. (j : ℕ) → j < jobs → slice_index_or sets.items j [] ≡ []) }
{
    let mut sets = Vec::new(alloc);
    for _ in 0..jobs {
        sets.push(MinuteSet::new())?;
    }
    Ok(sets)
}

fn add_to_job(sets: &mut [MinuteSet], list: &DueList)
    ensures long { length sets.new ≡ length sets.old }
    ensures each { (j m : ℕ) → j < length sets.old → m < 1440
        → has (slice_index_or sets.new j []) m ≡ (has (slice_index_or sets.old j []) m
        || (nat_eq list.now.job j && is_listed list.now.minutes m)) }
{
    let job = usize::from(list.job);
    if job < sets.len() {
        add_minutes(&mut sets[job], list.minutes.as_slice());
    }
}

fn add_to_jobs(sets: &mut [MinuteSet], due: &[DueList])
    ensures long { length sets.new ≡ length sets.old }
    ensures each { (j m : ℕ) → j < length sets.old → m < 1440
        → has (slice_index_or sets.new j []) m ≡ (has (slice_index_or sets.old j []) m
        || list_any (λ d. nat_eq d.job j && is_listed d.minutes m) due.now) }
{
    for list in due {
        add_to_job(sets, list);
    }
}

/// Returns the due minutes of each of this many jobs on the days of a class, by the job's number.
/// The only error is out of memory.
pub fn due_sets(alloc: Global, class: &Class, jobs: usize) -> Result<Vec<MinuteSet>, AllocError>
    ensures { IfOk result (λ sets. AreDueSets class.now jobs sets.items) }
{
    let mut sets = empty_sets(alloc, jobs)?;
    add_to_jobs(sets.as_mut_slice(), class.due.as_slice());
    Ok(sets)
}

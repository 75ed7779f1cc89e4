//! The clock of the zone that declarations name.
ghost use Rattle.std.specs.Prelude.{◌≡◌, ◌≤◌, IfOk, option_map, unsigned_abs};
ghost use Rattle.cs_decl.specs.Faults.{clock_of};
ghost use Rattle.cs_decl.specs.Join.{names_of_clocks, offset_of, zone_of};
ghost use Rattle.cs_decl.specs.Meaning.{IsValid};

use crate::entries::Entries;
use cs_civil::Bytes;
use cs_plan::ClockNames;
use cs_rule::{Clock, clock_in};
use cs_zone::Zone;
use std::alloc::{AllocError, Global};

pub(crate) fn clock_of(entries: &Entries) -> Option<Clock>
    ensures { result ≡ clock_of entries.now }
{
    match &entries.zone {
        Some(rule) => clock_in(rule.as_slice()),
        None => None,
    }
}

pub(crate) fn zone_of(entries: &Entries) -> Zone
    ensures { result ≡ zone_of entries.now }
{
    match clock_of(entries) {
        Some(clock) => clock.zone(),
        None => Zone::none(),
    }
}

#[tactic(auto, using(crate::proofs::Validity::offset_possible))]
pub(crate) fn offset_of(entries: &Entries) -> i16
    requires { IsValid entries.now }
    ensures value { result ≡ offset_of entries.now }
    ensures bound { unsigned_abs result ≤ 1439 }
{
    match clock_of(entries) {
        Some(clock) => clock.offset(),
        None => entries.offset as i16,
    }
}

pub(crate) fn names_of_clocks(
    alloc: Global,
    entries: &Entries,
) -> Result<Option<ClockNames>, AllocError>
    ensures { IfOk result (λ names. names ≡ option_map names_of_clocks (clock_of entries.now)) }
{
    match clock_of(entries) {
        Some(clock) => Ok(Some(ClockNames {
            plan: Bytes::from_slice(alloc, clock.name(false))?,
            other: Bytes::from_slice(alloc, clock.name(true))?,
        })),
        None => Ok(None),
    }
}

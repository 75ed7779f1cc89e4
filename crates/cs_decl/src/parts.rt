//! Decides whether the parts of a command make it up.
ghost use Rattle.std.specs.Prelude.{◌≡◌, IfOk, false, position};
ghost use Rattle.std.specs.List.{list_any};
ghost use Rattle.cs_decl.specs.Faults.{are_bad, has_bad_parts, is_bad_max, minutes_of};

use crate::entries::{CronEntry, PartEntry};
use crate::rows::is_bad_max;
use crate::twice::first_twice;
use std::alloc::{AllocError, Global};

fn have_bad_max(parts: &[PartEntry]) -> bool
    ensures { result ≡ list_any (λ p. is_bad_max p.max) parts.now }
{
    parts.iter().any(|part| is_bad_max(part.max))
}

fn minutes_of(parts: &[PartEntry]) -> u128
    requires { list_any (λ p. is_bad_max p.max) parts.now ≡ false }
    ensures { result ≡ minutes_of parts.now }
{
    let mut minutes = 0;
    for (i, part) in parts.iter().enumerate() {
        minutes += part.max.unsigned_abs();
    }
    minutes
}

fn are_bad(alloc: Global, max: i128, parts: &[PartEntry]) -> Result<bool, AllocError>
    ensures { IfOk result (λ b. b ≡ are_bad max parts.now) }
{
    if first_twice(alloc, parts)?.is_some() || have_bad_max(parts) {
        return Ok(true);
    }
    Ok(max < 0 || max.unsigned_abs() < minutes_of(parts))
}

fn has_bad_parts(alloc: Global, entry: &CronEntry) -> Result<bool, AllocError>
    ensures { IfOk result (λ b. b ≡ has_bad_parts entry.now) }
{
    if entry.parts.is_empty() {
        return Ok(false);
    }
    are_bad(alloc, entry.max, entry.parts.as_slice())
}

pub(crate) fn first_with_bad_parts(
    alloc: Global,
    cron: &[CronEntry],
) -> Result<Option<usize>, AllocError>
    ensures { IfOk result (λ o. o ≡ position has_bad_parts cron.now) }
{
    for (i, entry) in cron.iter().enumerate() {
        if has_bad_parts(alloc, entry)? {
            return Ok(Some(i));
        }
    }
    Ok(None)
}

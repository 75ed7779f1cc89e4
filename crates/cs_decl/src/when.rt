//! Reads and compares the schedule that an entry gives with its command.
ghost use Rattle.std.specs.Prelude.{◌≡◌, IfOk};
ghost use Rattle.cs_decl.specs.When.{agree, is_told_when, same_choice, same_numbers, same_times};
ghost use Rattle.cs_decl.specs.When.{same_when, when_named};

use cs_crontab::{Entry, Field, Numbers, Part, Schedule, When, read_line};
use std::alloc::{AllocError, Global};

/// What a text means before a command in `crontab(5)`: five fields, or an `@` word; `None` for any
/// other text.
#[tactic(auto, unfolding(crate::specs::When::when_named))]
pub fn named_when(alloc: Global, text: &str) -> Result<Option<When>, AllocError>
    ensures { IfOk result (λ when. when ≡ when_named text.now) }
{
    let mut line = Vec::from_slice(alloc, text.as_bytes())?;
    line.extend_from_slice(b" x".as_slice())?;
    match read_line(line.as_slice()) {
        Ok(Entry::Command(when, command)) => {
            if command == b"x".as_slice() {
                return Ok(Some(when));
            }
            Ok(None)
        }
        _ => Ok(None),
    }
}

fn agree(one: bool, other: bool) -> bool
    ensures { result ≡ agree one other }
{
    if one { other } else { !other }
}

fn are_same_numbers(one: &Numbers, other: &Numbers) -> bool
    ensures { result ≡ same_numbers one.now other.now }
{
    for number in 0..64 {
        if !agree(one.has(number), other.has(number)) {
            return false;
        }
    }
    true
}

#[tactic(auto, unfolding(crate::specs::When::same_choice))]
fn is_same_field(one: &Field, other: &Field) -> bool
    ensures { result ≡ same_choice one.now other.now }
{
    agree(one.begins_with_star(), other.begins_with_star())
        && are_same_numbers(one.numbers(), other.numbers())
}

#[tactic(auto, unfolding(crate::specs::When::same_times))]
fn is_same_schedule(one: &Schedule, other: &Schedule) -> bool
    ensures { result ≡ same_times one.now other.now }
{
    is_same_field(one.field(Part::Minute), other.field(Part::Minute))
        && is_same_field(one.field(Part::Hour), other.field(Part::Hour))
        && is_same_field(one.field(Part::Dom), other.field(Part::Dom))
        && is_same_field(one.field(Part::Month), other.field(Part::Month))
        && is_same_field(one.field(Part::Dow), other.field(Part::Dow))
}

/// Whether both are `@reboot`, or the same five fields: with the same numbers each, and `*` at the
/// start of both or of neither.
pub fn is_same_when(one: &When, other: &When) -> bool
    ensures { result ≡ same_when one.now other.now }
{
    match (one, other) {
        (When::At(one), When::At(other)) => is_same_schedule(one, other),
        (When::Reboot, When::Reboot) => true,
        _ => false,
    }
}

/// Whether an entry gives this schedule, or none.
pub fn is_told_when(told: &Option<When>, when: &When) -> bool
    ensures { result ≡ is_told_when told.now when.now }
{
    match told {
        Some(told) => is_same_when(told, when),
        None => true,
    }
}

ghost use Rattle.std.specs.Prelude.{◌≡◌};
ghost use Rattle.serde_json.specs.View.{view};
ghost use Rattle.cs_json.specs.Bytes.{json_of};
ghost use Rattle.cs_json.specs.Gives.{or_fault};
ghost use Rattle.cs_json.specs.declared.fault.JsonFault.TheVariants.{NotJson};
ghost use Rattle.cs_decl.specs.Shape.{entries_of};
ghost use Rattle.cs_decl.specs.Meaning.{declared_by, error_of, with_fault, IsValid};
ghost use Rattle.cs_plan.specs.Answers.{Answers};

use crate::doubled::doubled_member;
use crate::entries::Entries;
use crate::rows::fault_of;
use cs_json::{FromJson, JsonFault, Misread, parse};
use cs_plan::{DeclError, DeclFault};
use serde_json::Value;
use std::alloc::{AllocError, Global};
use std::marker::Model;

/// Declarations that were read, each number in its range.
#[derive(Drop)]
pub struct Declarations {
    entries: Entries,
}

impl Model for Declarations {
    ghost use Rattle.cs_decl.specs.declared.entries.Entries.{Entries};

    ghost Value = { Entries };

    ghost use Rattle.cs_decl.specs.Meaning.{IsValid};

    ghost view = { λ a. a.entries };

    ghost invariant = { λ a. IsValid a.entries };
}

impl Declarations {
    /// Returns the entries, as read.
    pub fn entries(&self) -> &Entries
        ensures value { result.now ≡ self.now }
        ensures valid { IsValid self.now }
    {
        &self.entries
    }
}

fn error_of(misread: Misread) -> DeclError
    ensures { result ≡ error_of misread }
{
    match misread {
        Misread::Memory => DeclError::from(AllocError),
        Misread::Fault(JsonFault::NotJson) => DeclError::At {
            fault: DeclFault::NotJson,
            place: None,
        },
        Misread::Fault(JsonFault::BadShape) => DeclError::At {
            fault: DeclFault::BadShape,
            place: None,
        },
    }
}

#[tactic(auto, using(crate::proofs::Misreadings::failed))]
fn json_value(alloc: Global, bytes: &[u8]) -> Result<Value, DeclError>
    ensures { Answers view (with_fault (or_fault NotJson (json_of bytes.now))) result }
{
    match parse(alloc, bytes) {
        Ok(value) => Ok(value),
        Err(misread) => Err(error_of(misread)),
    }
}

#[tactic(auto, using(crate::proofs::Misreadings::failed))]
fn entries_in(alloc: Global, value: &Value) -> Result<Entries, DeclError>
    ensures { Answers (λ e. e) (with_fault (entries_of (view value.now))) result }
{
    match Entries::from_json(alloc, value) {
        Ok(entries) => Ok(entries),
        Err(misread) => Err(error_of(misread)),
    }
}

/// Reads declarations, or returns their fault with the smallest number; among several with that
/// number, that of the groups, then of cron, then of anacron, then of the default.
///
/// [`join`](crate::join) checks that the lines and identifiers exist. A zone's rule has to be one of
/// [`cs_rule`], and neither an offset nor catch-up hours nor a pass minute may stand beside it.
/// Memory may run out.
#[tactic(auto, unfolding(crate::specs::Meaning::declared_by))]
pub fn read_declarations(alloc: Global, bytes: &[u8]) -> Result<Declarations, DeclError>
    ensures { Answers (λ d. d) (declared_by bytes.now) result }
{
    let value = json_value(alloc, bytes)?;
    let mut entries = entries_in(alloc, &value)?;
    match fault_of(alloc, &entries)? {
        None => {
            entries.doubled = doubled_member(alloc, bytes)?;
            Ok(Declarations { entries })
        }
        Some((fault, place)) => Err(DeclError::At { fault, place }),
    }
}

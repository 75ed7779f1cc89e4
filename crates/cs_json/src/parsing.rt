ghost use Rattle.std.specs.Prelude.{◌≡◌};
ghost use Rattle.serde_json.specs.View.{view};
ghost use Rattle.cs_json.specs.Bytes.{json_of};
ghost use Rattle.cs_json.specs.Gives.{Gives, or_fault};
ghost use Rattle.cs_json.specs.declared.fault.JsonFault.TheVariants.{NotJson};

use crate::fault::{JsonFault, Misread};
use serde_json::Value;
use std::alloc::{AllocError, Global};

/// Parses JSON as `serde_json` does: UTF-8, nested at most 127 deep, the last of repeated members.
/// `NotJson` if it isn't JSON; `Memory` if memory runs out.
pub fn parse(alloc: Global, bytes: &[u8]) -> Result<Value, Misread>
    ensures { Gives view result (or_fault NotJson (json_of bytes.now)) }
{
    match Value::from_slice(alloc, bytes) {
        Ok(value) => Ok(value),
        Err(e) => if e.is_memory() {
            Err(Misread::from(AllocError))
        } else {
            Err(Misread::Fault(JsonFault::NotJson))
        },
    }
}

ghost use Rattle.std.specs.Prelude.{◌≡◌, IfOk, map};
ghost use Rattle.serde_json.specs.View.{items_view, view};
ghost use Rattle.cs_json.specs.Bytes.{list_of};
ghost use Rattle.cs_json.specs.Gives.{Gives};
ghost use Rattle.cs_json.specs.Shape.{all_as, list_as};
ghost use Rattle.cs_cert.specs.Said.{carry_class_said, carry_said};
ghost use Rattle.cs_cert.specs.Written.{carry_class_data, carry_data, list_data};

use crate::form::{Form, items, pair, read_pair};
use crate::list_form::held_backlog;
use cs_civil::Sequence;
use cs_claims::{Class, GroupBacklog};
use cs_json::{Misread, only_members, value_at};
use cs_wait::Piece;
use serde_json::{Value, json};
use std::alloc::{AllocError, Global};

/// `[group, minutes]`.
fn read_carry(alloc: Global, value: &Value) -> Result<GroupBacklog, Misread>
    ensures { Gives (λ b. b) result (carry_said (view value.now)) }
{
    let (group, minutes) = read_pair(alloc, value)?;
    let mut pieces = Sequence::new(alloc);
    pieces.push(Piece {
        minute: 0,
        value: minutes,
    })?;
    Ok(held_backlog(alloc, group, pieces))
}

fn read_carries(alloc: Global, list: &Vec<Value>) -> Result<Vec<GroupBacklog>, Misread>
    ensures { Gives (λ v. v.items) result
        (all_as carry_said (list_of (items_view list.now.items))) }
{
    let mut found = Vec::with_capacity(alloc, list.len())?;
    for value in list {
        found.push(read_carry(alloc, value)?)?;
    }
    Ok(found)
}

/// `{"carry": ..}`.
fn read_class(alloc: Global, value: &Value) -> Result<Class, Misread>
    ensures { Gives (λ c. c) result (carry_class_said (view value.now)) }
{
    only_members(value, &["carry"])?;
    let carries = read_carries(alloc, items(value_at(value, "carry")?)?)?;
    Ok(Class {
        due: Sequence::new(alloc),
        backlog: Sequence::from_vec(carries),
    })
}

fn read_each_class(alloc: Global, list: &Vec<Value>) -> Result<Vec<Class>, Misread>
    ensures { Gives (λ v. v.items) result
        (all_as carry_class_said (list_of (items_view list.now.items))) }
{
    let mut found = Vec::with_capacity(alloc, list.len())?;
    for value in list {
        found.push(read_class(alloc, value)?)?;
    }
    Ok(found)
}

/// `BadShape` if they have another shape.
pub(crate) fn read_carry_classes(alloc: Global, value: &Value) -> Result<Sequence<Class>, Misread>
    ensures { Gives (λ s. s) result (list_as carry_class_said (view value.now)) }
{
    Ok(Sequence::from_vec(read_each_class(alloc, items(value)?)?))
}

fn write_carry(alloc: Global, of_group: &GroupBacklog) -> Result<Value, AllocError>
    ensures { IfOk result (λ v. view v ≡ carry_data of_group.now) }
{
    let minutes = of_group.backlog.at(0);
    pair(alloc, of_group.group.write(alloc)?, minutes.write(alloc)?)
}

fn write_carries(alloc: Global, carries: &[GroupBacklog]) -> Result<Vec<Value>, AllocError>
    ensures { IfOk result (λ v. map view v.items ≡ map carry_data carries.now) }
{
    let mut written = Vec::with_capacity(alloc, carries.len())?;
    for of_group in carries {
        written.push(write_carry(alloc, of_group)?)?;
    }
    Ok(written)
}

fn write_class(alloc: Global, class: &Class) -> Result<Value, AllocError>
    ensures { IfOk result (λ v. view v ≡ carry_class_data class.now) }
{
    let carries = Value::Array(write_carries(alloc, class.backlog.as_slice())?);
    json!(in alloc; {"carry": carries})
}

fn write_each_class(alloc: Global, classes: &[Class]) -> Result<Vec<Value>, AllocError>
    ensures { IfOk result (λ v. map view v.items ≡ map carry_class_data classes.now) }
{
    let mut written = Vec::with_capacity(alloc, classes.len())?;
    for class in classes {
        written.push(write_class(alloc, class)?)?;
    }
    Ok(written)
}

pub(crate) fn write_carry_classes(alloc: Global, classes: &[Class]) -> Result<Value, AllocError>
    ensures { IfOk result (λ v. view v ≡ list_data carry_class_data classes.now) }
{
    Ok(Value::Array(write_each_class(alloc, classes)?))
}

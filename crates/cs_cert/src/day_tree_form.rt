ghost use Rattle.std.specs.Prelude.{◌≡◌, IfOk, Ok, codes};
ghost use Rattle.serde_json.specs.Data.{member, no_members, object, string};
ghost use Rattle.serde_json.specs.View.{view};
ghost use Rattle.cs_json.specs.Gives.{Gives};
ghost use Rattle.cs_json.specs.Shape.{member_as};
ghost use Rattle.cs_daytree.specs.Tree.{Tree, split, tree_of};
ghost use Rattle.cs_daytree.specs.declared.tree.KindPart.{KindPart};
ghost use Rattle.cs_cert.specs.TreeSaid.{day_leaf_said, day_split_said, day_tree_said, part_said};
ghost use Rattle.cs_cert.specs.Written.{day_tree_data, part_name};

use crate::form::{Form, member};
use cs_civil::Sequence;
use cs_daytree::{DayTree, KindPart};
use cs_json::{BAD_SHAPE, Misread, only_members, value_at};
use serde_json::{Value, json};
use std::alloc::{AllocError, Global};

fn part_name(part: KindPart) -> &'static str
    ensures { result.now ≡ part_name part }
{
    match part {
        KindPart::Month => "month",
        KindPart::Day => "day",
        KindPart::Weekday => "weekday",
    }
}

fn read_part(value: &Value) -> Result<KindPart, Misread>
    ensures { Gives (λ p. p) result (part_said (view value.now)) }
{
    match value.as_str() {
        Some("month") => Ok(KindPart::Month),
        Some("day") => Ok(KindPart::Day),
        Some("weekday") => Ok(KindPart::Weekday),
        _ => Err(BAD_SHAPE),
    }
}

#[tactic(auto, unfolding(crate::specs::TreeSaid::day_leaf_said))]
fn read_leaf(alloc: Global, value: &Value) -> Result<DayTree, Misread>
    ensures { Gives tree_of result (day_leaf_said (view value.now)) }
{
    only_members(value, &["class"])?;
    Ok(DayTree::Leaf(member(alloc, value, "class")?))
}

fn split(
    alloc: Global,
    part: KindPart,
    values: Sequence<u8>,
    inside: DayTree,
    outside: DayTree,
) -> Result<DayTree, Misread>
    ensures { Gives tree_of result (Ok (split part values (tree_of inside) (tree_of outside))) }
{
    Ok(DayTree::Split {
        part,
        values,
        inside: Box::new(alloc, inside)?,
        outside: Box::new(alloc, outside)?,
    })
}

#[cycle(day)]
fn read_tree(alloc: Global, value: &Value) -> Result<DayTree, Misread>
    ensures { Gives tree_of result (day_tree_said (view value.now)) }
{
    if value.get("class").is_some() {
        read_leaf(alloc, value)
    } else {
        read_split(alloc, value)
    }
}

#[cycle(day)]
#[tactic(auto, unfolding(crate::specs::TreeSaid::day_split_said))]
fn read_split(alloc: Global, value: &Value) -> Result<DayTree, Misread>
    ensures { Gives tree_of result (day_split_said
        (member_as day_tree_said (codes "yes") (view value.now))
        (member_as day_tree_said (codes "no") (view value.now)) (view value.now)) }
{
    only_members(value, &["in", "no", "split", "yes"])?;
    let part = read_part(value_at(value, "split")?)?;
    let values = member(alloc, value, "in")?;
    let inside = read_half(alloc, value, "yes")?;
    let outside = read_half(alloc, value, "no")?;
    split(alloc, part, values, inside, outside)
}

#[cycle(day)]
fn read_half(alloc: Global, value: &Value, name: &str) -> Result<DayTree, Misread>
    ensures { Gives tree_of result (member_as day_tree_said name.now (view value.now)) }
{
    read_tree(alloc, value_at(value, name)?)
}

fn split_value(
    alloc: Global,
    part: KindPart,
    values: Value,
    inside: Value,
    outside: Value,
) -> Result<Value, AllocError>
    ensures { IfOk result (λ v. view v ≡ object (member (codes "in") (view values)
        (member (codes "no") (view outside)
        (member (codes "split") (string (part_name part))
        (member (codes "yes") (view inside) no_members))))) }
{
    let part = part_name(part);
    json!(in alloc; {"in": values, "no": outside, "split": part, "yes": inside})
}

/// `{"class": n}`, or `{"split": part, "in": [numbers], "yes": tree, "no": tree}`.
impl Form for DayTree {
    ghost Seen = { Tree };

    ghost seen = { tree_of };

    ghost said = { day_tree_said };

    ghost written = { day_tree_data };

    fn read(alloc: Global, value: &Value) -> Result<DayTree, Misread> {
        read_tree(alloc, value)
    }

    fn write(&self, alloc: Global) -> Result<Value, AllocError> {
        match self {
            DayTree::Leaf(class) => json!(in alloc; {"class": *class}),
            DayTree::Split {
                part,
                values,
                inside,
                outside,
            } => {
                let values = values.write(alloc)?;
                let inside = inside.write(alloc)?;
                let outside = outside.write(alloc)?;
                split_value(alloc, *part, values, inside, outside)
            }
        }
    }
}

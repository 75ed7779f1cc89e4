ghost use Rattle.std.specs.Prelude.{◌≡◌, codes};
ghost use Rattle.serde_json.specs.View.{view};
ghost use Rattle.cs_json.specs.Gives.{Gives};
ghost use Rattle.cs_json.specs.Shape.{member_as};
ghost use Rattle.cs_windows.specs.Tree.{Tree, tree_of};
ghost use Rattle.cs_claims.specs.Content.{StretchTree, stretch_of};
ghost use Rattle.cs_cert.specs.Denoted.{stretch_said};
ghost use Rattle.cs_cert.specs.TreeSaid.{minute_leaf_said, minute_split_said, minute_tree_said};
ghost use Rattle.cs_cert.specs.Written.{minute_tree_data, stretch_data};

use crate::form::{Form, member};
use cs_claims::Stretch;
use cs_json::{Misread, only_members, value_at};
use cs_windows::MinuteTree;
use serde_json::{Value, json};
use std::alloc::{AllocError, Global};

#[tactic(auto, unfolding(crate::specs::TreeSaid::minute_leaf_said))]
fn read_leaf(alloc: Global, value: &Value) -> Result<MinuteTree, Misread>
    ensures { Gives tree_of result (minute_leaf_said (view value.now)) }
{
    only_members(value, &["list"])?;
    Ok(MinuteTree::Leaf(member(alloc, value, "list")?))
}

#[cycle(minute)]
fn read_tree(alloc: Global, value: &Value) -> Result<MinuteTree, Misread>
    ensures { Gives tree_of result (minute_tree_said (view value.now)) }
{
    if value.get("list").is_some() {
        read_leaf(alloc, value)
    } else {
        read_split(alloc, value)
    }
}

#[cycle(minute)]
#[tactic(auto, unfolding(crate::specs::TreeSaid::minute_split_said))]
fn read_split(alloc: Global, value: &Value) -> Result<MinuteTree, Misread>
    ensures { Gives tree_of result (minute_split_said
        (member_as minute_tree_said (codes "before") (view value.now))
        (member_as minute_tree_said (codes "after") (view value.now)) (view value.now)) }
{
    only_members(value, &["after", "at", "before"])?;
    let at = member(alloc, value, "at")?;
    let before = read_half(alloc, value, "before")?;
    let after = read_half(alloc, value, "after")?;
    Ok(MinuteTree::Split {
        at,
        before: Box::new(alloc, before)?,
        after: Box::new(alloc, after)?,
    })
}

#[cycle(minute)]
fn read_half(alloc: Global, value: &Value, name: &str) -> Result<MinuteTree, Misread>
    ensures { Gives tree_of result (member_as minute_tree_said name.now (view value.now)) }
{
    read_tree(alloc, value_at(value, name)?)
}

/// `{"list": [entries]}`, or `{"at": minute, "before": tree, "after": tree}`.
impl Form for MinuteTree {
    ghost Seen = { Tree };

    ghost seen = { tree_of };

    ghost said = { minute_tree_said };

    ghost written = { minute_tree_data };

    fn read(alloc: Global, value: &Value) -> Result<MinuteTree, Misread> {
        read_tree(alloc, value)
    }

    fn write(&self, alloc: Global) -> Result<Value, AllocError> {
        match self {
            MinuteTree::Leaf(entries) => {
                let entries = entries.write(alloc)?;
                json!(in alloc; {"list": entries})
            }
            MinuteTree::Split { at, before, after } => {
                let before = before.write(alloc)?;
                let after = after.write(alloc)?;
                json!(in alloc; {"after": after, "at": *at, "before": before})
            }
        }
    }
}

/// `{"of": [classes], "tree": minute tree}`.
impl Form for Stretch {
    ghost Seen = { StretchTree };

    ghost seen = { stretch_of };

    ghost said = { stretch_said };

    ghost written = { stretch_data };

    fn read(alloc: Global, value: &Value) -> Result<Stretch, Misread> {
        only_members(value, &["of", "tree"])?;
        let of = member(alloc, value, "of")?;
        let tree = member(alloc, value, "tree")?;
        Ok(Stretch { of, tree })
    }

    fn write(&self, alloc: Global) -> Result<Value, AllocError> {
        let of = self.of.write(alloc)?;
        let tree = self.tree.write(alloc)?;
        json!(in alloc; {"of": of, "tree": tree})
    }
}

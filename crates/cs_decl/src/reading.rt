ghost use Rattle.std.specs.Prelude.{◌≡◌, [], Some, None, Ok, map};
ghost use Rattle.std.specs.Prelude.{pos, codes, is_some, ◌||◌};
ghost use Rattle.std.specs.Prelude.{false};
ghost use Rattle.serde_json.specs.View.{view};
ghost use Rattle.serde_json.specs.Find.{get};
ghost use Rattle.cs_json.specs.Gives.{Gives};
ghost use Rattle.cs_json.specs.Shape.{text, whole_number, list_as, member_as};
ghost use Rattle.cs_json.specs.Shape.{member_or_default, member_or_none, object_with};
ghost use Rattle.cs_history.specs.declared.mode.Mode.TheVariants.{Plain};
ghost use Rattle.cs_decl.specs.Shape.{mode_named, mode_of, note_of, group_of, line_name_of};
ghost use Rattle.cs_decl.specs.Shape.{when_of, guess_of};
ghost use Rattle.cs_decl.specs.Shape.{cron_of, anacron_of, default_of, left_out_of, terms_of};
ghost use Rattle.cs_decl.specs.Shape.{entries_of, is_group_member, is_cron_member};
ghost use Rattle.cs_decl.specs.Shape.{is_anacron_member, is_default_member, is_left_out_member};
ghost use Rattle.cs_decl.specs.Shape.{is_member, is_part_member, part_of};
ghost use Rattle.cs_decl.specs.declared.entries.LineName.{LineName};
ghost use Rattle.cs_decl.specs.declared.entries.GroupEntry.{GroupEntry};
ghost use Rattle.cs_decl.specs.declared.entries.CronEntry.{CronEntry};
ghost use Rattle.cs_decl.specs.declared.entries.PartEntry.{PartEntry};
ghost use Rattle.cs_decl.specs.declared.entries.AnacronEntry.{AnacronEntry};
ghost use Rattle.cs_decl.specs.declared.entries.DefaultEntry.{DefaultEntry};
ghost use Rattle.cs_decl.specs.declared.entries.Entries.{Entries};

use crate::entries::{
    AnacronEntry, CronEntry, DefaultEntry, Entries, GroupEntry, LineName, PartEntry,
};
use crate::when::named_when;
use cs_civil::{Bytes, Sequence};
use cs_crontab::When;
use cs_history::Mode;
use cs_json::{BAD_SHAPE, FromJson, Misread, member, member_if_there, member_or, only_members};
use serde_json::Value;
use std::alloc::Global;

// ---- members that more than one entry has

fn text_member(alloc: Global, value: &Value, name: &str) -> Result<Bytes, Misread>
    ensures { Gives (λ b. b) result (member_as text name.now (view value.now)) }
{
    let text: String = member(alloc, value, name)?;
    Ok(Bytes::from_vec(text.into_bytes()))
}

fn text_if_there(alloc: Global, value: &Value, name: &str) -> Result<Option<Bytes>, Misread>
    ensures { Gives (λ b. b) result (member_or_none text name.now (view value.now)) }
{
    match value.get(name) {
        Some(_) => Ok(Some(text_member(alloc, value, name)?)),
        None => Ok(None),
    }
}

/// Passes over a note, which is for people: any text will do.
fn pass_note(value: &Value) -> Result<(), Misread>
    ensures { Gives (λ u. u) result (note_of (view value.now)) }
{
    let Some(note) = value.get("note") else {
        return Ok(());
    };
    match note.as_str() {
        Some(_) => Ok(()),
        None => Err(BAD_SHAPE),
    }
}

fn list_member<T: FromJson>(
    alloc: Global,
    value: &Value,
    name: &str,
) -> Result<Sequence<T>, Misread>
    ensures { Gives (map T.seen) result
        (member_or_default (list_as T.shape) [] name.now (view value.now)) }
{
    let items: Vec<T> = member_or(alloc, value, name, Vec::new(alloc))?;
    Ok(Sequence::from_vec(items))
}

fn weight_member(alloc: Global, value: &Value) -> Result<i128, Misread>
    ensures { Gives (λ w. w) result
        (member_or_default whole_number (pos 1) (codes "weight") (view value.now)) }
{
    member_or(alloc, value, "weight", 1)
}

fn when_if_there(alloc: Global, value: &Value) -> Result<Option<When>, Misread>
    ensures { Gives (λ w. w) result (member_or_none when_of (codes "when") (view value.now)) }
{
    let Some(found) = value.get("when") else {
        return Ok(None);
    };
    let Some(text) = found.as_str() else {
        return Err(BAD_SHAPE);
    };
    match named_when(alloc, text)? {
        Some(when) => Ok(Some(when)),
        None => Err(BAD_SHAPE),
    }
}

fn guess_member(alloc: Global, value: &Value) -> Result<bool, Misread>
    ensures { Gives (λ g. g) result (guess_of (view value.now)) }
{
    member_or(alloc, value, "guess", false)
}

/// `BadShape` if there is neither number nor command.
#[tactic(auto, unfolding(crate::specs::Shape::line_name_of))]
fn line_name(alloc: Global, value: &Value) -> Result<LineName, Misread>
    ensures { Gives (λ n. n) result (line_name_of (view value.now)) }
{
    let number: Option<i128> = member_if_there(alloc, value, "line")?;
    let command = text_if_there(alloc, value, "command")?;
    if number.is_none() && command.is_none() {
        return Err(BAD_SHAPE);
    }
    let when = when_if_there(alloc, value)?;
    Ok(LineName {
        number,
        command,
        when,
    })
}

fn named_mode(name: &str) -> Option<Mode>
    ensures { result ≡ mode_named name.now }
{
    match name {
        "none" => Some(Mode::Plain),
        "skip" => Some(Mode::Skip),
        "try" => Some(Mode::Try),
        "wait" => Some(Mode::Wait),
        "shared" => Some(Mode::Shared),
        _ => None,
    }
}

fn mode_member(value: &Value) -> Result<Mode, Misread>
    ensures { Gives (λ m. m) result
        (member_or_default mode_of Plain (codes "mode") (view value.now)) }
{
    let Some(mode) = value.get("mode") else {
        return Ok(Mode::Plain);
    };
    match mode.as_str() {
        Some(name) => named_mode(name).ok_or(BAD_SHAPE),
        None => Err(BAD_SHAPE),
    }
}

// ---- entries

#[tactic(auto, unfolding(crate::specs::Shape::is_group_member))]
fn group_object(value: &Value) -> Result<(), Misread>
    ensures { Gives (λ u. u) result (object_with is_group_member (view value.now)) }
{
    only_members(value, ["exclusive", "name", "note"].as_slice())
}

#[tactic(auto, unfolding(crate::specs::Shape::group_of))]
impl FromJson for GroupEntry {
    ghost Seen = { GroupEntry };

    ghost seen = { λ e. e };

    ghost shape = { group_of };

    fn from_json(alloc: Global, value: &Value) -> Result<GroupEntry, Misread> {
        group_object(value)?;
        pass_note(value)?;
        Ok(GroupEntry {
            name: text_member(alloc, value, "name")?,
            exclusive: member(alloc, value, "exclusive")?,
        })
    }
}

#[tactic(auto, unfolding(crate::specs::Shape::is_cron_member))]
fn cron_object(value: &Value) -> Result<(), Misread>
    ensures { Gives (λ u. u) result (object_with is_cron_member (view value.now)) }
{
    only_members(
        value,
        [
            "command", "group", "guess", "line", "max", "mode", "name", "note", "parts", "weight",
            "when",
        ]
        .as_slice(),
    )
}

#[tactic(auto, unfolding(crate::specs::Shape::cron_of))]
impl FromJson for CronEntry {
    ghost Seen = { CronEntry };

    ghost seen = { λ e. e };

    ghost shape = { cron_of };

    fn from_json(alloc: Global, value: &Value) -> Result<CronEntry, Misread> {
        cron_object(value)?;
        pass_note(value)?;
        Ok(CronEntry {
            name: line_name(alloc, value)?,
            max: member(alloc, value, "max")?,
            weight: weight_member(alloc, value)?,
            group: text_if_there(alloc, value, "group")?,
            mode: mode_member(value)?,
            parts: list_member(alloc, value, "parts")?,
            guess: guess_member(alloc, value)?,
            label: text_if_there(alloc, value, "name")?,
        })
    }
}

#[tactic(auto, unfolding(crate::specs::Shape::is_part_member))]
fn part_object(value: &Value) -> Result<(), Misread>
    ensures { Gives (λ u. u) result (object_with is_part_member (view value.now)) }
{
    only_members(value, ["max", "name", "note"].as_slice())
}

#[tactic(auto, unfolding(crate::specs::Shape::part_of))]
impl FromJson for PartEntry {
    ghost Seen = { PartEntry };

    ghost seen = { λ e. e };

    ghost shape = { part_of };

    fn from_json(alloc: Global, value: &Value) -> Result<PartEntry, Misread> {
        part_object(value)?;
        pass_note(value)?;
        Ok(PartEntry {
            name: text_member(alloc, value, "name")?,
            max: member(alloc, value, "max")?,
        })
    }
}

#[tactic(auto, unfolding(crate::specs::Shape::is_anacron_member))]
fn anacron_object(value: &Value) -> Result<(), Misread>
    ensures { Gives (λ u. u) result (object_with is_anacron_member (view value.now)) }
{
    only_members(
        value,
        ["group", "guess", "id", "max", "mode", "note", "weight"].as_slice(),
    )
}

#[tactic(auto, unfolding(crate::specs::Shape::anacron_of))]
impl FromJson for AnacronEntry {
    ghost Seen = { AnacronEntry };

    ghost seen = { λ e. e };

    ghost shape = { anacron_of };

    fn from_json(alloc: Global, value: &Value) -> Result<AnacronEntry, Misread> {
        anacron_object(value)?;
        pass_note(value)?;
        Ok(AnacronEntry {
            identifier: text_member(alloc, value, "id")?,
            max: member(alloc, value, "max")?,
            weight: weight_member(alloc, value)?,
            group: text_if_there(alloc, value, "group")?,
            has_mode: value.get("mode").is_some(),
            guess: guess_member(alloc, value)?,
        })
    }
}

// ---- jobs without an entry, and lines that are left out

#[tactic(auto, unfolding(crate::specs::Shape::is_default_member))]
fn default_object(value: &Value) -> Result<(), Misread>
    ensures { Gives (λ u. u) result (object_with is_default_member (view value.now)) }
{
    only_members(value, ["max", "note", "weight"].as_slice())
}

#[tactic(auto, unfolding(crate::specs::Shape::default_of))]
impl FromJson for DefaultEntry {
    ghost Seen = { DefaultEntry };

    ghost seen = { λ e. e };

    ghost shape = { default_of };

    fn from_json(alloc: Global, value: &Value) -> Result<DefaultEntry, Misread> {
        default_object(value)?;
        pass_note(value)?;
        Ok(DefaultEntry {
            max: member(alloc, value, "max")?,
            weight: weight_member(alloc, value)?,
        })
    }
}

#[tactic(auto, unfolding(crate::specs::Shape::is_left_out_member))]
fn left_out_object(value: &Value) -> Result<(), Misread>
    ensures { Gives (λ u. u) result (object_with is_left_out_member (view value.now)) }
{
    only_members(value, ["command", "line", "note", "when"].as_slice())
}

/// An entry of `left_out`.
#[tactic(auto, unfolding(crate::specs::Shape::left_out_of))]
impl FromJson for LineName {
    ghost Seen = { LineName };

    ghost seen = { λ n. n };

    ghost shape = { left_out_of };

    fn from_json(alloc: Global, value: &Value) -> Result<LineName, Misread> {
        left_out_object(value)?;
        pass_note(value)?;
        line_name(alloc, value)
    }
}

// ---- all members

#[tactic(auto, unfolding(crate::specs::Shape::is_member))]
fn whole_object(value: &Value) -> Result<(), Misread>
    ensures { Gives (λ u. u) result (object_with is_member (view value.now)) }
{
    only_members(
        value,
        [
            "anacron", "capacity", "cron", "default", "groups", "hours", "left_out", "note",
            "offset", "pass", "zone",
        ]
        .as_slice(),
    )
}

#[derive(Drop)]
struct Terms {
    capacity: i128,
    offset: i128,
    zone: Option<Bytes>,
    hours: (i128, i128),
    pass: Option<i128>,
    default: Option<DefaultEntry>,
}

/// `BadShape` if there are both a zone and an offset.
#[tactic(auto, unfolding(crate::specs::Shape::terms_of))]
fn terms_of(alloc: Global, value: &Value) -> Result<Terms, Misread>
    ensures { Gives (λ t. t) result (terms_of (view value.now)) }
{
    if value.get("zone").is_some() && value.get("offset").is_some() {
        return Err(BAD_SHAPE);
    }
    Ok(Terms {
        capacity: member(alloc, value, "capacity")?,
        offset: member_or(alloc, value, "offset", 0)?,
        zone: text_if_there(alloc, value, "zone")?,
        hours: member_or(alloc, value, "hours", (0, 1_440))?,
        pass: member_if_there(alloc, value, "pass")?,
        default: member_if_there(alloc, value, "default")?,
    })
}

#[tactic(auto, unfolding(crate::specs::Shape::entries_of))]
impl FromJson for Entries {
    ghost Seen = { Entries };

    ghost seen = { λ e. e };

    ghost shape = { entries_of };

    fn from_json(alloc: Global, value: &Value) -> Result<Entries, Misread> {
        whole_object(value)?;
        pass_note(value)?;
        let terms = terms_of(alloc, value)?;
        Ok(Entries {
            capacity: terms.capacity,
            offset: terms.offset,
            zone: terms.zone,
            hours: terms.hours,
            pass: terms.pass,
            default: terms.default,
            groups: list_member(alloc, value, "groups")?,
            cron: list_member(alloc, value, "cron")?,
            anacron: list_member(alloc, value, "anacron")?,
            left_out: list_member(alloc, value, "left_out")?,
            doubled: None,
        })
    }
}

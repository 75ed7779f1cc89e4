//! Warnings and notes for the operator, a line each, in the order of printing.
ghost use Rattle.std.specs.Prelude.{◌≡◌, IfOk};
ghost use Rattle.cs_draft.specs.Draft.{warning_of};

use crate::layout::Done;
use cs_civil::push_number;
use cs_place::push_shown;
use cs_table::text::first_line;
use std::alloc::{AllocError, Global};

/// The names of the tables in warnings.
pub(crate) const CRONTAB: &str = "crontab";

pub(crate) const ANACRONTAB: &str = "anacrontab";

#[tactic(auto, unfolding(crate::specs::Draft::warning_of))]
pub(crate) fn warning_of(alloc: Global, table: &[u8], number: u32) -> Result<Vec<u8>, AllocError>
    ensures { IfOk result (λ text. text.items ≡ warning_of table.now number) }
{
    let mut text = Vec::from_slice(alloc, b"warning: the command on line ".as_slice())?;
    push_number(alloc, &mut text, u128::from(number))?;
    text.extend_from_slice(b" of the ")?;
    text.extend_from_slice(table)?;
    text.extend_from_slice(b" is declared without a lock: ")?;
    Ok(text)
}

pub(crate) fn tell(told: &mut Vec<u8>, front: &str, shown: &str, end: &str) -> Done {
    told.extend_from_slice(front.as_bytes())?;
    told.extend_from_slice(shown.as_bytes())?;
    told.extend_from_slice(end.as_bytes())?;
    told.extend_from_slice(b"\n")
}

/// Adds a line with a number, of a line or an entry, after `front`.
pub(crate) fn tell_of(
    alloc: Global,
    told: &mut Vec<u8>,
    front: &str,
    number: u64,
    behind: &str,
    shown: &str,
    end: &str,
) -> Done {
    told.extend_from_slice(front.as_bytes())?;
    push_number(alloc, told, u128::from(number))?;
    tell(told, behind, shown, end)
}

pub(crate) fn warn(
    alloc: Global,
    told: &mut Vec<u8>,
    table: &str,
    number: u32,
    what: &str,
) -> Done {
    let front = "warning: the command on line ";
    tell_of(
        alloc,
        told,
        front,
        u64::from(number),
        " of the ",
        table,
        what,
    )
}

/// Repeats the warnings in the comments of a text of longest times.
pub(crate) fn remark(told: &mut Vec<u8>, remarks: &[u8]) -> Done {
    let mut rest = remarks;
    while !rest.is_empty() {
        let (line, behind) = first_line(rest);
        if let Some(warning) = line.strip_prefix(b"# warning: ".as_slice()) {
            told.extend_from_slice(b"warning: ")?;
            push_shown(told, warning)?;
            told.extend_from_slice(b"\n")?;
        }
        rest = behind;
    }
    Ok(())
}

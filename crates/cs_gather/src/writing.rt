//! The lines of a table in the gathered text.
ghost use Rattle.std.specs.Prelude.{◌≡◌, ◌≤◌, IfErr, length};
ghost use Rattle.cs_crontab.specs.declared.fault.LineFault.TheVariants.{TooLong};
ghost use Rattle.cs_table.specs.declared.limits.TheConstants.{MAX_TABLE};
ghost use Rattle.cs_table.specs.Table.{as_error, found_at};
ghost use Rattle.cs_table.specs.Text.{after, is_blank};
ghost use Rattle.cs_table.specs.Wrong.{whole};
ghost use Rattle.cs_system.specs.declared.fault.SystemFault.TheVariants.{Line};
ghost use Rattle.cs_gather.specs.Gather.{IsOverflow};

use crate::comment::push_place;
use crate::gathering::GatherFault;
use crate::line::Gathered;
use cs_civil::{Bytes, Sequence};
use cs_crontab::{Entry, LineFault, read_line};
use cs_place::{PART, push_shown};
use cs_system::SystemFault;
use cs_table::text::{first_line, skip_blanks};
use cs_table::{MAX_LINE, MAX_TABLE, Wrong};
use std::alloc::{AllocError, Global};

/// Adds the place of a command, its parts, and the command. Returns whether the text and its
/// comments are short enough.
fn push_command(
    text: &mut Vec<u8>,
    line: &[u8],
    gathered: &Gathered,
    parts: &[Bytes],
) -> Result<bool, AllocError> {
    let len = text.len();
    text.extend_from_slice(b"#@ ".as_slice())?;
    text.extend_from_slice(gathered.origin.as_slice())?;
    text.push(b' ')?;
    text.extend_from_slice(gathered.user.as_slice())?;
    let mut is_short = text.len().saturating_sub(len) <= MAX_LINE;
    text.push(b'\n')?;
    for name in parts {
        text.extend_from_slice(PART)?;
        text.extend_from_slice(name.as_slice())?;
        text.push(b'\n')?;
        is_short = is_short && name.len() <= MAX_LINE - PART.len();
    }
    let mut time = skip_blanks(line);
    if let Ok(Entry::Command(_, behind)) = read_line(line) {
        time = &time[..time.len().saturating_sub(behind.len())];
    }
    text.extend_from_slice(time)?;
    text.extend_from_slice(gathered.command.as_slice())?;
    text.push(b'\n')?;
    Ok(is_short && text.len() <= MAX_TABLE)
}

/// Adds the comment of a setting, `# NAME:LINE SETTING`, or `# NAME:LINE` if that is too long;
/// nothing for another line. Returns whether the text and the comment are short enough.
fn push_setting(
    alloc: Global,
    text: &mut Vec<u8>,
    name: &[u8],
    number: u32,
    line: &[u8],
) -> Result<bool, AllocError> {
    let Ok(Entry::Setting(_, _)) = read_line(line) else {
        return Ok(true);
    };
    let mut comment = Vec::from_slice(alloc, b"# ".as_slice())?;
    push_place(alloc, &mut comment, name, number)?;
    let len = comment.len();
    comment.push(b' ')?;
    push_shown(&mut comment, skip_blanks(line))?;
    if comment.len() > MAX_LINE {
        comment.truncate(len);
    }
    text.extend_from_slice(comment.as_slice())?;
    text.push(b'\n')?;
    Ok(comment.len() <= MAX_LINE && text.len() <= MAX_TABLE)
}

/// The fault of the whole line.
fn overflow(fault: LineFault, number: u32, line: &[u8]) -> GatherFault
    ensures { result
        ≡ as_error (found_at number line.now (whole (Line fault) (after is_blank line.now))) }
{
    Wrong::whole(SystemFault::Line(fault), skip_blanks(line)).at(number, line)
}

/// Adds the lines of a table; `room` is how many commands may still be added.
pub(crate) fn push_lines(
    alloc: Global,
    text: &mut Vec<u8>,
    name: &[u8],
    bytes: &[u8],
    room: usize,
    commands: &[Gathered],
    parts: &[Sequence<Bytes>],
) -> Result<(), GatherFault>
    requires { length bytes.now ≤ MAX_TABLE }
    ensures { IfErr result (IsOverflow bytes.now room commands.now) }
{
    let mut index = 0;
    let mut number = 0u32;
    let mut rest = bytes;
    while !rest.is_empty() {
        let (line, behind) = first_line(rest);
        number += 1;
        let is_short = match commands.get(index) {
            Some(command) if command.number == number => {
                if index == room {
                    return Err(overflow(LineFault::TooManyJobs, number, line));
                }
                let names = match parts.get(index) {
                    Some(names) => names.as_slice(),
                    None => &[],
                };
                index += 1;
                push_command(text, line, command, names)?
            }
            _ => push_setting(alloc, text, name, number, line)?,
        };
        if !is_short {
            return Err(overflow(LineFault::TooLong, number, line));
        }
        rest = behind;
    }
    Ok(())
}

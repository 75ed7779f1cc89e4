//! Notes and warnings about tables.
use crate::table::Table;
use cs_place::push_shown;
use cs_report::{first_behind_user, is_no_user, is_unheeded};
use cs_system::SystemLine;
use cs_table::Setting;
use cs_table::text::word;
use std::alloc::{AllocError, Global};

/// Adds the parts as one line.
pub(crate) fn push_line(text: &mut Vec<u8>, parts: &[&[u8]]) -> Result<(), AllocError> {
    for part in parts {
        push_shown(text, *part)?;
    }
    text.extend_from_slice(b"\n")
}

/// Notes that something is ignored, and why; except for the file by which Debian's packages keep
/// folders.
pub(crate) fn push_ignored(
    text: &mut Vec<u8>,
    folder: &str,
    name: &[u8],
    why: &str,
) -> Result<(), AllocError> {
    if name == b".placeholder".as_slice() {
        return Ok(());
    }
    let (folder, why) = (folder.as_bytes(), why.as_bytes());
    push_line(text, &[b"note: ", folder, name, b" is ignored: ", why])
}

/// Adds a line with a place: the start, ` on line N of PATH`, and the rest.
pub(crate) fn push_at(
    alloc: Global,
    text: &mut Vec<u8>,
    start: &[u8],
    line: u32,
    path: &str,
    rest: &[&[u8]],
) -> Result<(), AllocError> {
    let place = format!(in alloc; " on line {line} of {path}")?;
    push_shown(text, start)?;
    push_shown(text, place.as_bytes())?;
    push_line(text, rest)
}

/// Notes why Debian's cron ignores a table: others may write to it, or it has no newline at its
/// end.
fn push_unread(
    text: &mut Vec<u8>,
    path: &str,
    bytes: &[u8],
    is_open: bool,
) -> Result<(), AllocError> {
    let path = path.as_bytes();
    if is_open {
        let end = b": Debian's cron ignores such a table: use chmod go-w".as_slice();
        push_line(text, &[b"note: others may write to ", path, end])?;
    }
    if bytes.is_empty() || bytes.ends_with(b"\n".as_slice()) {
        return Ok(());
    }
    let end = b" has no newline at its end: Debian's cron ignores such a table".as_slice();
    push_line(text, &[b"note: ", path, end])
}

/// Warns of each setting that only other daemons heed.
fn push_unheeded(
    alloc: Global,
    text: &mut Vec<u8>,
    path: &str,
    settings: &[Setting],
) -> Result<(), AllocError> {
    for setting in settings {
        if is_unheeded(setting) {
            push_shown(text, b"warning: ".as_slice())?;
            let (name, number) = (setting.name(), setting.number());
            push_at(alloc, text, name, number, path, &[b" has no effect"])?;
        }
    }
    Ok(())
}

/// Warns of the first user that is probably a command.
fn push_no_user(
    alloc: Global,
    text: &mut Vec<u8>,
    path: &str,
    lines: &[SystemLine],
) -> Result<(), AllocError> {
    let end = b", as a command in a user's table: see --user".as_slice();
    for line in lines {
        if is_no_user(line.user()) {
            let rest: [&[u8]; 3] = [b" is ", line.user(), end];
            return push_at(
                alloc,
                text,
                b"warning: the user",
                line.number(),
                path,
                &rest,
            );
        }
    }
    Ok(())
}

/// Adds the notes and warnings about a table; `is_open` says whether others may write to it.
pub(crate) fn push_warnings(
    alloc: Global,
    text: &mut Vec<u8>,
    path: &str,
    bytes: &[u8],
    is_open: bool,
    table: &Table,
) -> Result<(), AllocError> {
    push_unread(text, path, bytes, is_open)?;
    let table = match table {
        Table::System(table) => {
            push_unheeded(alloc, text, path, table.settings())?;
            return push_no_user(alloc, text, path, table.lines());
        }
        Table::User(table) => table,
    };
    push_unheeded(alloc, text, path, table.settings())?;
    let Some(line) = first_behind_user(table.lines()) else {
        return Ok(());
    };
    let (name, _) = word(line.command());
    let end = b", as in a system table: see --system".as_slice();
    let rest: [&[u8]; 3] = [b" begins with ", name, end];
    push_at(
        alloc,
        text,
        b"warning: the command",
        line.number(),
        path,
        &rest,
    )
}

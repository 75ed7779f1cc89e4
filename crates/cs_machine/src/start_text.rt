//! What is written of a command that can't be started.
ghost use Rattle.std.specs.Prelude.{◌≡◌, ◌++◌, IfOk, OnOk};
ghost use Rattle.std.specs.Option.{option_copied};
ghost use Rattle.cs_machine.specs.StartText.{error_line, place_text, remark_text, start_text};
ghost use Rattle.cs_machine.specs.StartText.{user_text};

use crate::shell::CommandFault;
use crate::user::UserFault;
use cs_place::push_shown;
use std::alloc::{AllocError, Global};

pub(crate) fn fault_text(fault: CommandFault) -> &'static [u8] {
    match fault {
        CommandFault::NotText => b"can't start a command: it or a setting of it isn't UTF-8",
        CommandFault::BadShell => b"can't start a command as another user: its SHELL has a =",
        CommandFault::OutOfMemory => b"can't start a command: out of memory",
    }
}

pub(crate) fn user_text(alloc: Global, user: &[u8], fault: UserFault) -> Result<Vec<u8>, AllocError>
    ensures { IfOk result (λ text. text.items ≡ user_text user.now fault) }
{
    let mut text = Vec::from_slice(alloc, b"can't start a command as '".as_slice())?;
    text.extend_from_slice(user)?;
    text.extend_from_slice(b"': ")?;
    text.extend_from_slice(fault.why())?;
    Ok(text)
}

pub(crate) fn push_place(text: &mut Vec<u8>, folder: Option<&[u8]>) -> Result<(), AllocError>
    ensures { OnOk result (text.new.items
        ≡ text.old.items ++ place_text (option_copied folder.entry)) }
{
    let Some(folder) = folder else {
        return Ok(());
    };
    text.extend_from_slice(b" in '")?;
    text.extend_from_slice(folder)?;
    text.extend_from_slice(b"'")
}

pub(crate) fn push_start(
    text: &mut Vec<u8>,
    shell: &[u8],
    folder: Option<&[u8]>,
    why: &[u8],
) -> Result<(), AllocError>
    ensures { OnOk result (text.new.items
        ≡ text.old.items ++ start_text shell.now (option_copied folder.entry) why.now) }
{
    text.extend_from_slice(b"can't start '")?;
    text.extend_from_slice(shell)?;
    text.extend_from_slice(b"'")?;
    push_place(text, folder)?;
    text.extend_from_slice(b": ")?;
    text.extend_from_slice(why)
}

pub(crate) fn remark_text(alloc: Global, run: &[u8], why: &[u8]) -> Result<Vec<u8>, AllocError>
    ensures { IfOk result (λ text. text.items ≡ remark_text run.now why.now) }
{
    let mut text = Vec::from_slice(alloc, run)?;
    text.extend_from_slice(b": ")?;
    text.extend_from_slice(why)?;
    Ok(text)
}

pub(crate) fn error_line(alloc: Global, text: &[u8]) -> Result<Vec<u8>, AllocError>
    ensures { IfOk result (λ line. line.items ≡ error_line text.now) }
{
    let mut line = Vec::from_slice(alloc, b"cronsafe: ".as_slice())?;
    push_shown(&mut line, text)?;
    line.extend_from_slice(b"\n")?;
    Ok(line)
}

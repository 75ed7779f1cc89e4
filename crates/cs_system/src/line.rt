ghost use Rattle.std.specs.Prelude.{◌≡◌, IfOk, IfErr};
ghost use Rattle.std.specs.List.{list_any};
ghost use Rattle.cs_table.specs.Wrong.{Gives, IsWithin};
ghost use Rattle.cs_system.specs.Grammar.{is_foreign, Says};
ghost use Rattle.cs_system.specs.Faults.{LineFails, as_system};
ghost use Rattle.cs_system.specs.Reading.{command_of, line_of};
ghost use Rattle.cs_system.specs.Seen.{entry_seen};

use crate::fault::SystemFault;
use cs_crontab::{Entry, LineFault, When, read_line};
use cs_table::Wrong;
use cs_table::text::{skip_blanks, word};

/// The content of a line.
#[derive(Drop)]
pub enum SystemEntry<'a> {
    /// The line is empty, blank or a comment.
    Nothing,
    /// A name and its value.
    Setting(&'a [u8], &'a [u8]),
    /// A command, when it starts, and the user that it runs as.
    Command {
        when: When,
        user: &'a [u8],
        command: &'a [u8],
    },
}

fn is_foreign(byte: u8) -> bool
    ensures { result ≡ is_foreign byte }
{
    byte == b'/' || byte == b'=' || byte == b'"' || byte == b'\'' || byte < 32 || byte == 127
}

fn holds_foreign(user: &[u8]) -> bool
    ensures { result ≡ list_any is_foreign user.now }
{
    user.iter().any(|byte| is_foreign(*byte))
}

/// The user and the command, which follow the fields or the word after `@`.
fn user_command(when: When, text: &[u8]) -> Result<SystemEntry<'_>, Wrong<SystemFault>>
    ensures { Gives entry_seen result (command_of when text.now) }
{
    let (user, rest) = word(text);
    if holds_foreign(user) {
        return Err(Wrong::at_front(SystemFault::BadUser, text, user));
    }
    let command = skip_blanks(rest);
    if command.is_empty() {
        return Err(Wrong::at_end(SystemFault::Line(LineFault::NoCommand)));
    }
    Ok(SystemEntry::Command {
        when,
        user,
        command,
    })
}

fn as_system(wrong: Wrong<LineFault>) -> Wrong<SystemFault>
    ensures { result ≡ as_system wrong }
{
    Wrong {
        fault: SystemFault::Line(wrong.fault),
        left: wrong.left,
        length: wrong.length,
    }
}

#[tactic(auto, unfolding(crate::specs::Reading::line_of))]
fn content(line: &[u8]) -> Result<SystemEntry<'_>, Wrong<SystemFault>>
    ensures { Gives entry_seen result (line_of line.now) }
{
    match read_line(line) {
        Err(wrong) => Err(as_system(wrong)),
        Ok(Entry::Nothing) => Ok(SystemEntry::Nothing),
        Ok(Entry::Setting(name, value)) => Ok(SystemEntry::Setting(name, value)),
        Ok(Entry::Command(when, text)) => user_command(when, text),
    }
}

/// Reads the content of a line, or returns its first fault from left to right.
///
/// It is a line of a user's table, but a user and blanks stand before the command (crontab(5)). The
/// user goes to the next blank.
pub fn read_system_line(line: &[u8]) -> Result<SystemEntry<'_>, Wrong<SystemFault>>
    ensures says { IfOk result (λ entry. Says line.now (entry_seen entry)) }
    ensures fails { IfErr result (LineFails line.now) }
    ensures within { IfErr result (IsWithin line.now) }

    // the same, as a value
    ensures value { Gives entry_seen result (line_of line.now) }
{
    content(line)
}

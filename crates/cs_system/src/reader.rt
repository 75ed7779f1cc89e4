ghost use Rattle.std.specs.Prelude.{◌≡◌, IfOk, IfErr};
ghost use Rattle.cs_table.specs.Table.{Denotes, table_of};
ghost use Rattle.cs_system.specs.System.{no_lines};
ghost use Rattle.cs_system.specs.Faults.{too_long, IsSystemCrontab, IsFaultOf, Means, Meaning};
ghost use Rattle.cs_system.specs.Table.{added};

use crate::fault::SystemFault;
use crate::line::{SystemEntry, read_system_line};
use crate::table::{SystemLine, SystemTable};
use cs_civil::{Bytes, Sequence};
use cs_crontab::{LineFault, MAX_COMMANDS};
use cs_table::text::skip_blanks;
use cs_table::{Draft, Setting, TableFault, Wrong, read_table};
use std::alloc::{AllocError, Global};
use std::marker::Model;

#[derive(Drop)]
struct SystemDraft {
    variables: Sequence<Setting>,
    commands: Sequence<SystemLine>,
}

impl Model for SystemDraft {
    ghost use Rattle.cs_system.specs.System.{Table};

    ghost Value = { Table };

    ghost view = { λ a. record { settings = a.variables; lines = a.commands } };
}

impl SystemDraft {
    fn new(alloc: Global) -> SystemDraft
        ensures { result ≡ no_lines }
    {
        SystemDraft {
            variables: Sequence::new(alloc),
            commands: Sequence::new(alloc),
        }
    }
}

impl Draft for SystemDraft {
    type Fault = SystemFault;

    ghost added = { added };

    fn add(
        &mut self,
        alloc: Global,
        number: u32,
        line: &[u8],
    ) -> Result<Result<(), Wrong<SystemFault>>, AllocError> {
        match read_system_line(line) {
            Err(wrong) => Ok(Err(wrong)),
            Ok(SystemEntry::Nothing) => Ok(Ok(())),
            Ok(SystemEntry::Setting(name, value)) => {
                let name = Bytes::from_slice(alloc, name)?;
                let value = Bytes::from_slice(alloc, value)?;
                self.variables.push(Setting::new(number, name, value))?;
                Ok(Ok(()))
            }
            Ok(
                SystemEntry::Command {
                    when,
                    user,
                    command,
                },
            ) => {
                if self.commands.len() < MAX_COMMANDS {
                    let user = Bytes::from_slice(alloc, user)?;
                    let command = Bytes::from_slice(alloc, command)?;
                    self.commands
                        .push(SystemLine::new(number, when, user, command))?;
                    return Ok(Ok(()));
                }
                let fault = SystemFault::Line(LineFault::TooManyJobs);
                Ok(Err(Wrong::whole(fault, skip_blanks(line))))
            }
        }
    }
}

fn read_bytes(alloc: Global, bytes: &[u8]) -> Result<SystemTable, TableFault<SystemFault>>
    ensures { Denotes (λ table. table) (table_of added no_lines too_long bytes.now) result }
{
    let too_long = SystemFault::Line(LineFault::TooLong);
    let draft = read_table(alloc, SystemDraft::new(alloc), too_long, bytes)?;
    Ok(SystemTable::new(draft.variables, draft.commands))
}

/// Reads a system table, `/etc/crontab` or a file of `/etc/cron.d` (crontab(5)), or returns its
/// first fault: the length of the table first; in a line its length, a zero byte, faults from left
/// to right, and then too many commands.
pub fn read_system_crontab(
    alloc: Global,
    bytes: &[u8],
) -> Result<SystemTable, TableFault<SystemFault>>
    // The bytes are written as this table.
    ensures table { IfOk result (IsSystemCrontab bytes.now) }
    // the first fault; `OutOfMemory` only if memory ran out
    ensures fault { IfErr result (IsFaultOf bytes.now) }
    // The bytes have no other meaning, and it is returned unless memory ran out.
    ensures only { (meaning : Meaning) → Means bytes.now meaning
        → Denotes (λ table. table) meaning result }
{
    read_bytes(alloc, bytes)
}

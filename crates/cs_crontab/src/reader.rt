ghost use Rattle.std.specs.Prelude.{◌≡◌, IfOk, IfErr};
ghost use Rattle.cs_crontab.specs.Crontab.{no_lines};
ghost use Rattle.cs_crontab.specs.Faults.{IsCrontab, IsFaultOf, Means, Meaning};
ghost use Rattle.cs_crontab.specs.Table.{added};
ghost use Rattle.cs_crontab.specs.declared.fault.LineFault.TheVariants.{TooLong};
ghost use Rattle.cs_table.specs.Table.{Denotes, table_of};

use crate::fault::{LineFault, TableFault};
use crate::limits::MAX_COMMANDS;
use crate::line::{Entry, read_line};
use crate::table::{Crontab, Line};
use cs_civil::{Bytes, Sequence};
use cs_table::text::skip_blanks;
use cs_table::{Draft, Setting, Wrong, read_table};
use std::alloc::{AllocError, Global};
use std::marker::Model;

#[derive(Drop)]
struct CrontabDraft {
    variables: Sequence<Setting>,
    commands: Sequence<Line>,
}

impl Model for CrontabDraft {
    ghost use Rattle.cs_crontab.specs.Crontab.{Table};

    ghost Value = { Table };

    ghost view = { λ a. record { settings = a.variables; lines = a.commands } };
}

impl CrontabDraft {
    fn new(alloc: Global) -> CrontabDraft
        ensures { result ≡ no_lines }
    {
        CrontabDraft {
            variables: Sequence::new(alloc),
            commands: Sequence::new(alloc),
        }
    }
}

impl Draft for CrontabDraft {
    type Fault = LineFault;

    ghost added = { added };

    fn add(
        &mut self,
        alloc: Global,
        number: u32,
        line: &[u8],
    ) -> Result<Result<(), Wrong<LineFault>>, AllocError> {
        match read_line(line) {
            Err(wrong) => Ok(Err(wrong)),
            Ok(Entry::Nothing) => Ok(Ok(())),
            Ok(Entry::Setting(name, value)) => {
                let name = Bytes::from_slice(alloc, name)?;
                let value = Bytes::from_slice(alloc, value)?;
                self.variables.push(Setting::new(number, name, value))?;
                Ok(Ok(()))
            }
            Ok(Entry::Command(when, command)) => {
                if self.commands.len() < MAX_COMMANDS {
                    let command = Bytes::from_slice(alloc, command)?;
                    self.commands.push(Line::new(number, when, command))?;
                    return Ok(Ok(()));
                }
                Ok(Err(Wrong::whole(LineFault::TooManyJobs, skip_blanks(line))))
            }
        }
    }
}

fn read_bytes(alloc: Global, bytes: &[u8]) -> Result<Crontab, TableFault>
    ensures { Denotes (λ table. table) (table_of added no_lines TooLong bytes.now) result }
{
    let draft = read_table(alloc, CrontabDraft::new(alloc), LineFault::TooLong, bytes)?;
    Ok(Crontab::new(draft.variables, draft.commands))
}

/// Reads a crontab (crontab(5)), or returns its first fault. Memory may run out.
///
/// The table's length comes first; in a line its length, then a zero byte, then faults from left to
/// right, then too many commands.
pub fn read_crontab(alloc: Global, bytes: &[u8]) -> Result<Crontab, TableFault>
    // The table is written in the bytes.
    ensures table { IfOk result (IsCrontab bytes.now) }
    // err: the first fault; `OutOfMemory` only if memory runs out
    ensures fault { IfErr result (IsFaultOf bytes.now) }
    // The bytes have no other meaning, and it is returned unless memory runs out.
    ensures only { (meaning : Meaning) → Means bytes.now meaning
        → Denotes (λ table. table) meaning result }
{
    read_bytes(alloc, bytes)
}

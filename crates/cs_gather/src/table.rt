//! A table to gather, as it was read.
ghost use Rattle.std.specs.Prelude.{◌≡◌, IfErr, IfOk, map};
ghost use Rattle.cs_gather.specs.Gathered.{commands_of, of_system, of_user};
ghost use Rattle.cs_gather.specs.Gather.{Denotes, HasFault, as_system};

use crate::gathering::GatherFault;
use crate::given::Given;
use crate::line::Gathered;
use cs_crontab::{Crontab, Line, read_crontab};
use cs_system::{SystemFault, SystemLine, SystemTable, read_system_crontab};
use cs_table::TableFault;
use std::alloc::{AllocError, Global};

/// A system table, or that of a user.
#[derive(Drop)]
pub(crate) enum Table {
    System(SystemTable),
    User(Crontab),
}

fn as_system(fault: cs_crontab::TableFault) -> GatherFault
    ensures { result ≡ as_system fault }
{
    match fault {
        TableFault::OutOfMemory => TableFault::OutOfMemory,
        TableFault::At {
            line,
            column,
            length,
            fault,
        } => TableFault::At {
            line,
            column,
            length,
            fault: SystemFault::Line(fault),
        },
    }
}

/// The table of the bytes, or its first fault.
pub(crate) fn read_table(alloc: Global, given: &Given, bytes: &[u8]) -> Result<Table, GatherFault>
    ensures table { IfOk result (Denotes given.now.user bytes.now) }
    ensures fault { IfErr result (HasFault given.now.user bytes.now) }
{
    match given.owner() {
        None => match read_system_crontab(alloc, bytes) {
            Ok(table) => Ok(Table::System(table)),
            Err(fault) => Err(fault),
        },
        Some(_) => match read_crontab(alloc, bytes) {
            Ok(table) => Ok(Table::User(table)),
            Err(fault) => Err(as_system(fault)),
        },
    }
}

fn system_commands(
    alloc: Global,
    name: &[u8],
    lines: &[SystemLine],
) -> Result<Vec<Gathered>, AllocError>
    ensures { IfOk result (λ commands. commands.items ≡ map (of_system name.now) lines.now) }
{
    let mut commands = Vec::new(alloc);
    for line in lines {
        let (number, user) = (line.number(), line.user());
        let (when, command) = (line.when(), line.command());
        commands.push(Gathered::new(alloc, name, number, user, when, command)?)?;
    }
    Ok(commands)
}

fn user_commands(
    alloc: Global,
    name: &[u8],
    user: &[u8],
    lines: &[Line],
) -> Result<Vec<Gathered>, AllocError>
    ensures { IfOk result (λ commands. commands.items ≡ map (of_user name.now user.now) lines.now) }
{
    let mut commands = Vec::new(alloc);
    for line in lines {
        let (number, when, command) = (line.number(), line.when(), line.command());
        commands.push(Gathered::new(alloc, name, number, user, when, command)?)?;
    }
    Ok(commands)
}

impl Table {
    pub(crate) fn commands(&self, alloc: Global, given: &Given) -> Result<Vec<Gathered>, AllocError>
        ensures { IfOk result (λ commands. commands.items ≡ commands_of given.now self.now) }
    {
        let name = given.name().as_bytes();
        match self {
            Table::System(table) => system_commands(alloc, name, table.lines()),
            Table::User(table) => {
                let user = given.owner().unwrap_or("");
                user_commands(alloc, name, user.as_bytes(), table.lines())
            }
        }
    }
}

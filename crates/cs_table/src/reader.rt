ghost use Rattle.std.specs.Prelude.{◌≡◌, ◌≤◌, ℕ, List, Result, length, IfOk, IfErr};
ghost use Rattle.cs_table.specs.declared.fault.Wrong.{Wrong};
ghost use Rattle.cs_table.specs.declared.limits.TheConstants.{MAX_TABLE};
ghost use Rattle.cs_table.specs.Text.{lines_of};
ghost use Rattle.cs_table.specs.Wrong.{Gives, IsWithin};
ghost use Rattle.cs_table.specs.Table.{Denotes, lines_from, table_of};

use crate::fault::{TableFault, Wrong};
use crate::limits::MAX_TABLE;
use crate::text::first_line;
use std::alloc::{AllocError, Global};

/// A table that is read line by line.
pub trait Draft: Drop {
    /// What is wrong with a line.
    type Fault: Drop;

    ghost added: { ℕ → Self → List ℕ → Result Self (Wrong Self.Fault) };

    /// Adds what the line with that number says, or returns what is wrong with it.
    fn add(
        &mut self,
        alloc: Global,
        number: u32,
        line: &[u8],
    ) -> Result<Result<(), Wrong<Self::Fault>>, AllocError>
        ensures gives { IfOk result
            (λ answer. Gives (λ _. self.new) answer (added number self.old line.now)) }
        ensures within { IfOk result
            (λ answer. IfErr answer (IsWithin line.now)) };
}

fn read_lines<T: Draft>(alloc: Global, empty: T, bytes: &[u8]) -> Result<T, TableFault<T::Fault>>
    requires { length bytes.now ≤ MAX_TABLE }
    ensures { Denotes (λ table. table) (lines_from T.added 1 empty (lines_of bytes.now)) result }
{
    let mut table = empty;
    let mut number = 0u32;
    let mut rest = bytes;
    while !rest.is_empty() {
        let (line, after) = first_line(rest);
        number += 1;
        match table.add(alloc, number, line)? {
            Ok(()) => rest = after,
            Err(wrong) => return Err(wrong.at(number, line)),
        }
    }
    Ok(table)
}

/// Reads a table line by line from an empty one on, or returns the first fault: `too_long` at line
/// 0 if there are more bytes than [`MAX_TABLE`](crate::MAX_TABLE).
#[tactic(auto, unfolding(crate::specs::Table::table_of))]
pub fn read_table<T: Draft>(
    alloc: Global,
    empty: T,
    too_long: T::Fault,
    bytes: &[u8],
) -> Result<T, TableFault<T::Fault>>
    ensures { Denotes (λ table. table) (table_of T.added empty too_long bytes.now) result }
{
    if bytes.len() > MAX_TABLE {
        return Err(TableFault::At {
            line: 0,
            column: 0,
            length: 0,
            fault: too_long,
        });
    }
    read_lines(alloc, empty, bytes)
}

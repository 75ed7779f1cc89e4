ghost use Rattle.std.specs.Prelude.{◌≡◌, ◌≤◌, ◌++◌, IfErr, OnOk, length};
ghost use Rattle.cs_table.specs.declared.limits.TheConstants.{MAX_TABLE};
ghost use Rattle.cs_gather.specs.Gather.{room_behind, IsOverflow};

use crate::line::Gathered;
use crate::writing::push_lines;
use cs_civil::{Bytes, Sequence};
use cs_crontab::MAX_COMMANDS;
use cs_system::SystemFault;
use cs_table::TableFault;
use std::alloc::Global;

/// Why a table can't be added: its first fault; or, at a line, the first command above
/// [`MAX_COMMANDS`](cs_crontab::MAX_COMMANDS) in all tables, a text above
/// [`MAX_TABLE`](cs_table::MAX_TABLE) or a comment above [`MAX_LINE`](cs_table::MAX_LINE).
pub(crate) type GatherFault = TableFault<SystemFault>;

/// Tables of a machine as one user's table, so far.
///
/// Its first line is the setting `CRONSAFE_TABLE=gathered`. A comment above each command gives its
/// place, `#@ NAME:LINE USER`, and then `#@ part NAME` each of its parts. A setting becomes the
/// comment `# NAME:LINE SETTING`, or `# NAME:LINE` if that would exceed
/// [`MAX_LINE`](cs_table::MAX_LINE). Other lines are dropped. In comments a byte below 32, 127 and
/// `\` are `\xNN` (this profile).
#[derive(Drop)]
pub(crate) struct Gathering {
    pub(crate) text: Vec<u8>,
    pub(crate) commands: Vec<Gathered>,
    /// Whether no table was ignored.
    pub(crate) is_whole: bool,
}

impl Gathering {
    /// Adds the commands of a table, each with its parts; `name` is that of the table in comments.
    pub(crate) fn add(
        &mut self,
        alloc: Global,
        name: &str,
        bytes: &[u8],
        commands: Vec<Gathered>,
        parts: &[Sequence<Bytes>],
    ) -> Result<(), GatherFault>
        requires { length bytes.now ≤ MAX_TABLE }
        ensures ok { OnOk result
            ((self.new.commands.items ≡ self.old.commands.items ++ commands.items)
            × (self.new.is_whole ≡ self.old.is_whole)) }
        ensures err { IfErr result
            (IsOverflow bytes.now (room_behind self.old.commands.items) commands.items) }
    {
        let mut commands = commands;
        let room = MAX_COMMANDS.saturating_sub(self.commands.len());
        let name = name.as_bytes();
        push_lines(alloc, &mut self.text, name, bytes, room, &commands, parts)?;
        self.commands.append(&mut commands)?;
        Ok(())
    }
}

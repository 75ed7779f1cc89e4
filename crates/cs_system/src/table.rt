ghost use Rattle.std.specs.Prelude.{◌≡◌, ◌<◌, ◌≤◌, length, AllPairs};
ghost use Rattle.cs_crontab.specs.declared.limits.TheConstants.{MAX_COMMANDS};

use cs_civil::{Bytes, Sequence};
use cs_crontab::When;
use cs_table::Setting;
use std::marker::Model;

/// A command line of a system table.
#[derive(Drop)]
pub struct SystemLine {
    place: u32,
    time: When,
    owner: Bytes,
    text: Bytes,
}

impl Model for SystemLine {
    ghost use Rattle.cs_system.specs.System.{SystemCommand};

    ghost Value = { SystemCommand };

    ghost view = { λ a. record {
      number = a.place;
      when = a.time;
      user = a.owner;
      command = a.text;
    } };
}

impl SystemLine {
    pub(crate) fn new(number: u32, when: When, user: Bytes, command: Bytes) -> SystemLine
        ensures { result
            ≡ record { number = number; when = when; user = user; command = command } }
    {
        SystemLine {
            place: number,
            time: when,
            owner: user,
            text: command,
        }
    }

    /// Returns the number of the line in the table, from 1.
    pub fn number(&self) -> u32
        ensures { result ≡ self.now.number }
    {
        self.place
    }

    /// Returns when its command starts.
    pub fn when(&self) -> &When
        ensures { result.now ≡ self.now.when }
    {
        &self.time
    }

    /// Returns the user that its command runs as.
    pub fn user(&self) -> &[u8]
        ensures { result.now ≡ self.now.user }
    {
        self.owner.as_slice()
    }

    /// Returns the command to the end of the line, with trailing blanks.
    pub fn command(&self) -> &[u8]
        ensures { result.now ≡ self.now.command }
    {
        self.text.as_slice()
    }
}

/// A system table: its settings, and at most [`MAX_COMMANDS`](cs_crontab::MAX_COMMANDS) commands,
/// by line.
#[derive(Drop)]
pub struct SystemTable {
    variables: Sequence<Setting>,
    commands: Sequence<SystemLine>,
}

impl Model for SystemTable {
    ghost use Rattle.cs_system.specs.System.{Table, IsOrdered};

    ghost Value = { Table };

    ghost view = { λ a. record { settings = a.variables; lines = a.commands } };

    ghost invariant = { λ a. IsOrdered (record { settings = a.variables; lines = a.commands }) };
}

impl SystemTable {
    ghost use Rattle.cs_system.specs.System.{IsOrdered};

    pub(crate) fn new(settings: Sequence<Setting>, lines: Sequence<SystemLine>) -> SystemTable
        requires { IsOrdered (record { settings = settings; lines = lines }) }
        ensures { result ≡ record { settings = settings; lines = lines } }
    {
        SystemTable {
            variables: settings,
            commands: lines,
        }
    }

    /// Returns the settings, in order of line.
    pub fn settings(&self) -> &[Setting]
        ensures value { result.now ≡ self.now.settings }
        ensures rising { AllPairs (λ x y. x.number < y.number) self.now.settings }
    {
        self.variables.as_slice()
    }

    /// Returns the command lines, in order of line.
    pub fn lines(&self) -> &[SystemLine]
        ensures value { result.now ≡ self.now.lines }
        ensures few { length self.now.lines ≤ MAX_COMMANDS }
        ensures rising { AllPairs (λ x y. x.number < y.number) self.now.lines }
    {
        self.commands.as_slice()
    }
}

ghost use Rattle.std.specs.Prelude.{◌≡◌, ◌<◌, ◌≤◌, ◌==◌, not, length, map, All, AllPairs, IfOk};
ghost use Rattle.std.specs.List.{filter, list_any};
ghost use Rattle.cs_table.specs.Environment.{above, names_of, first_places, IsLast};
ghost use Rattle.cs_crontab.specs.declared.limits.TheConstants.{MAX_COMMANDS};

use cs_civil::{Bytes, Sequence};
use cs_schedule::Schedule;
use cs_table::{Setting, copy_settings, env_of};
use std::alloc::{AllocError, Global};
use std::marker::Model;

/// When a command starts.
#[derive(Drop)]
pub enum When {
    /// At the minutes that match five time and date fields.
    At(Schedule),
    /// Once, at startup: `@reboot`.
    Reboot,
}

impl When {
    fn copy(&self) -> When
        ensures { result ≡ self.now }
    {
        match self {
            When::At(schedule) => When::At(schedule.copy()),
            When::Reboot => When::Reboot,
        }
    }
}

/// A command line of a crontab.
#[derive(Drop)]
pub struct Line {
    place: u32,
    time: When,
    text: Bytes,
}

impl Model for Line {
    ghost use Rattle.cs_crontab.specs.Crontab.{CommandLine};

    ghost Value = { CommandLine };

    ghost view = { λ a. record { number = a.place; when = a.time; command = a.text } };
}

impl Line {
    pub(crate) fn new(number: u32, when: When, command: Bytes) -> Line
        ensures { result ≡ record { number = number; when = when; command = command } }
    {
        Line {
            place: number,
            time: when,
            text: command,
        }
    }

    /// Returns the number of the line, counted from 1 over all lines of the table.
    pub fn number(&self) -> u32
        ensures { result ≡ self.now.number }
    {
        self.place
    }

    fn copy(&self, alloc: Global) -> Result<Line, AllocError>
        ensures { IfOk result (λ line. line ≡ self.now) }
    {
        Ok(Line {
            place: self.place,
            time: self.time.copy(),
            text: Bytes::from_slice(alloc, self.text.as_slice())?,
        })
    }

    /// Returns when its command starts.
    pub fn when(&self) -> &When
        ensures { result.now ≡ self.now.when }
    {
        &self.time
    }

    /// Returns the command, to the end of the line, trailing blanks included.
    pub fn command(&self) -> &[u8]
        ensures { result.now ≡ self.now.command }
    {
        self.text.as_slice()
    }
}

fn copy_lines(alloc: Global, lines: &[Line]) -> Result<Sequence<Line>, AllocError>
    ensures { IfOk result (λ copies. copies ≡ lines.now) }
{
    let mut copies = Sequence::new(alloc);
    for line in lines {
        copies.push(line.copy(alloc)?)?;
    }
    Ok(copies)
}

fn is_among(numbers: &[u32], line: &Line) -> bool
    ensures { result ≡ list_any (λ n. n == line.now.number) numbers.now }
{
    numbers.iter().any(|number| *number == line.number())
}

fn keep_others(lines: Vec<Line>, numbers: &[u32]) -> Vec<Line>
    ensures { result.items
        ≡ filter (λ line. not (list_any (λ n. n == line.number) numbers.now)) lines.items }
{
    let mut kept = lines;
    kept.retain(
        |line: &Line| -> bool
            ensures { result ≡ not (list_any (λ n. n == line.now.number) numbers.entry.now) }
        { !is_among(numbers, line) },
    );
    kept
}

/// A crontab: its settings, and at most [`MAX_COMMANDS`](crate::MAX_COMMANDS) commands, by line.
#[derive(Drop)]
pub struct Crontab {
    variables: Sequence<Setting>,
    commands: Sequence<Line>,
}

impl Model for Crontab {
    ghost use Rattle.cs_crontab.specs.Crontab.{Table, IsOrdered};

    ghost Value = { Table };

    ghost view = { λ a. record { settings = a.variables; lines = a.commands } };

    ghost invariant = { λ a. IsOrdered (record { settings = a.variables; lines = a.commands }) };
}

impl Crontab {
    ghost use Rattle.cs_crontab.specs.Crontab.{IsOrdered, without};

    pub(crate) fn new(settings: Sequence<Setting>, lines: Sequence<Line>) -> Crontab
        requires { IsOrdered (record { settings = settings; lines = lines }) }
        ensures { result ≡ record { settings = settings; lines = lines } }
    {
        Crontab {
            variables: settings,
            commands: lines,
        }
    }

    /// Copies the crontab.
    pub fn copy(&self, alloc: Global) -> Result<Crontab, AllocError>
        ensures { IfOk result (λ table. table ≡ self.now) }
    {
        Ok(Crontab {
            variables: copy_settings(alloc, self.variables.as_slice())?,
            commands: copy_lines(alloc, self.commands.as_slice())?,
        })
    }

    /// Takes out the commands on the lines of these numbers, without allocating. Settings stay.
    pub fn without(self, numbers: &[u32]) -> Crontab
        ensures { result ≡ without numbers.now self }
    {
        let Crontab {
            variables,
            commands,
        } = self;
        Crontab {
            variables,
            commands: Sequence::from_vec(keep_others(commands.into_vec(), numbers)),
        }
    }

    /// Returns the settings, in order of line.
    pub fn settings(&self) -> &[Setting]
        ensures value { result.now ≡ self.now.settings }
        ensures rising { AllPairs (λ x y. x.number < y.number) self.now.settings }
    {
        self.variables.as_slice()
    }

    /// Returns the command lines, in order of line.
    pub fn lines(&self) -> &[Line]
        ensures value { result.now ≡ self.now.lines }
        ensures few { length self.now.lines ≤ MAX_COMMANDS }
        ensures rising { AllPairs (λ x y. x.number < y.number) self.now.lines }
    {
        self.commands.as_slice()
    }

    /// Returns the environment of the command on that line, like [`env_of`].
    pub fn env_of(&self, alloc: Global, line: u32) -> Result<Sequence<(Bytes, Bytes)>, AllocError>
        ensures names { IfOk result
            (λ env. map (λ v. v.0) env ≡ first_places (names_of (above line self.now.settings))) }
        ensures values { IfOk result (All (IsLast (above line self.now.settings))) }
    {
        env_of(alloc, self.settings(), line)
    }
}

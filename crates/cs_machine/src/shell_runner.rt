ghost use Rattle.std.specs.Prelude.{◌≡◌, ◌≢◌, ◌++◌, ℕ, ℤ, if◌then◌else◌, IfSome, None, Ok, Some};
ghost use Rattle.std.specs.Prelude.{MatchOption, option_map};
ghost use Rattle.std.specs.Option.{option_copied};
ghost use Rattle.std.specs.Process.{command_args, command_program, exit_code, exit_signal};
ghost use Rattle.cs_device.specs.declared.runner.Outcome.TheVariants.{Ended, Exited, Killed};
ghost use Rattle.cs_device.specs.declared.runner.Outcome.TheVariants.{NotStarted};
ghost use Rattle.cs_machine.specs.Limit.{IsLimitOf, program_under, words_under};
ghost use Rattle.cs_machine.specs.Shell.{shell_name, shell_words, value_of, with_shell};
ghost use Rattle.cs_machine.specs.User.{IsAsUser};
ghost use Rattle.cs_machine.specs.declared.home.Home.{Home};

use crate::as_user::user_command;
use crate::home::Home;
use crate::limit::{Limit, limit_end, limit_line, limit_of};
use crate::machine_clock::unix_seconds;
use crate::output::{OutputFolder, push_output_fault};
use crate::remarks::Remarks;
use crate::shell::{CommandFault, shell_command};
use crate::start_text::{error_line, fault_text, push_start, remark_text, user_text};
use cs_civil::{Bytes, Minute};
use cs_device::{Failures, Outcome, Runner};
use std::alloc::{AllocError, Global};
use std::fs::File;
use std::io;
use std::io::{Stderr, Stdout, Write};
use std::os::unix::process::ExitStatusExt;
use std::process::{Child, Command, ExitStatus, OpenProcess, Processes, Stdio};
use std::rt::{Clock, Files};
use std::sync::Wait;

/// Runs each command with a shell of this machine (see [`shell_command`]), one of another user by
/// runuser(1) (see [`user_command`]). Its output goes to the file of its run, if a folder for it is
/// given and the file can be opened; else to the daemon's own standard output and standard error.
///
/// With the offset of the plan's clock it ends each run in time, by timeout(1), and leaves a
/// remark: such a run has status 124, or 137 if it was killed. If the machine's clock can't be
/// read, the command is killed after a second. A clock that jumps, and what leaves the command's
/// process group, isn't held.
///
/// A command that can't be started is [`NotStarted`](Outcome::NotStarted); after 2^64 - 1 of them,
/// another is [`Ended`](Outcome::Ended). Why it can't be started, or its file can't be opened, goes
/// to the standard error, and to the log as a remark.
#[derive(Drop)]
pub struct ShellRunner<'r, P> {
    processes: &'r P,
    alloc: Global,
    out: Stdout,
    err: Stderr,
    remarks: &'r Remarks,
    home: Option<Home>,
    tells_signals: bool,
    output: Option<OutputFolder>,
    offset: Option<i16>,
    failures: Failures,
}

fn start_fault(alloc: Global, shell: &Command, error: &io::Error) -> Result<Vec<u8>, AllocError> {
    let why = format!(in alloc; "{error}")?;
    let folder = match shell.get_current_dir() {
        Some(path) => Some(path.as_os_str().as_bytes()),
        None => None,
    };
    let mut text = Vec::new(alloc);
    push_start(
        &mut text,
        shell.get_program().as_bytes(),
        folder,
        why.as_bytes(),
    )?;
    Ok(text)
}

fn output_fault(
    alloc: Global,
    run: &[u8],
    folder: &OutputFolder,
    error: &io::Error,
) -> Result<Vec<u8>, AllocError> {
    let why = format!(in alloc; "{error}")?;
    let mut text = Vec::new(alloc);
    push_output_fault(&mut text, run, folder.path.as_bytes(), why.as_bytes())?;
    Ok(text)
}

fn unlisted_text(alloc: Global, run: &[u8], error: &io::Error) -> Result<Vec<u8>, AllocError> {
    let why = format!(in alloc; "not listed for a later daemon: {error}")?;
    remark_text(alloc, run, why.as_bytes())
}

fn outcome_of(status: ExitStatus, tells_signals: bool) -> Outcome
    ensures exited { (code : ℤ) → exit_code status ≡ Some code → result ≡ Exited code }
    ensures killed { (signal : ℤ) → exit_code status ≡ None → exit_signal status ≡ Some signal
        → result ≡ (if tells_signals then Killed signal else Ended) }
    ensures ended { exit_code status ≡ None → exit_signal status ≡ None → result ≡ Ended }
    ensures started { result ≢ NotStarted }
{
    match (status.code(), status.signal()) {
        (Some(code), _) => Outcome::Exited(code),
        (None, Some(signal)) if tells_signals => Outcome::Killed(signal),
        (None, _) => Outcome::Ended,
    }
}

fn finish<S: OpenProcess>(
    child: &mut Child<S>,
    input: Option<&[u8]>,
    tells_signals: bool,
) -> Outcome
    ensures { result ≢ NotStarted }
{
    if let (Some(pipe), Some(bytes)) = (child.stdin.as_mut(), input) {
        // a command may end before it has read its input
        let _ = pipe.write_all(bytes);
    }
    match child.wait() {
        Ok(status) => outcome_of(status, tells_signals),
        Err(_) => Outcome::Ended,
    }
}

/// Without its signal, unless that is reported.
fn shown(outcome: Outcome, tells_signals: bool) -> Outcome
    ensures { outcome ≢ NotStarted → result ≢ NotStarted }
{
    match outcome {
        Outcome::Killed(_) if !tells_signals => Outcome::Ended,
        _ => outcome,
    }
}

fn left_of(limit: Option<Limit>) -> Option<u64>
    ensures { result ≡ option_map (λ l. l.left) limit }
{
    match limit {
        Some(limit) => Some(limit.left),
        None => None,
    }
}

impl<'r, P: Processes + Files<File = File> + Clock + Wait> ShellRunner<'r, P> {
    /// Returns a runner without failures. With a home, commands get the user's variables and
    /// folder. A command that a signal ended is [`Killed`](Outcome::Killed) if `tells_signals`,
    /// else [`Ended`](Outcome::Ended). With an offset, in minutes ahead of UTC, runs are ended in
    /// time.
    pub fn new(
        processes: &'r P,
        alloc: Global,
        out: Stdout,
        err: Stderr,
        remarks: &'r Remarks,
        home: Option<Home>,
        tells_signals: bool,
        output: Option<OutputFolder>,
        offset: Option<i16>,
    ) -> ShellRunner<'r, P>
        ensures failures { result.failures ≡ 0 }
        ensures home { result.home ≡ home }
        ensures tells_signals { result.tells_signals ≡ tells_signals }
        ensures output { result.output ≡ output }
        ensures offset { result.offset ≡ offset }
    {
        ShellRunner {
            processes,
            alloc,
            out,
            err,
            remarks,
            home,
            tells_signals,
            output,
            offset,
            failures: Failures::none(),
        }
    }

    /// If the clock can't be read, no second is left.
    fn limit_now(&self, until: Option<Minute>) -> Option<Limit>
        ensures { MatchOption self.now.offset
            (result ≡ None)
            (λ offset. (second : ℕ) × IsLimitOf offset until second result) }
    {
        let offset = self.offset?;
        let second = unix_seconds(self.processes).unwrap_or(u64::MAX);
        limit_of(offset, until, second)
    }

    /// None also where the file can't be opened, which is reported.
    fn open_output(&self, run: &[u8]) -> Option<(File, File)> {
        let folder = self.output.as_ref()?;
        match folder.open(self.processes, self.alloc, run) {
            Ok(files) => Some(files),
            Err(error) => {
                if let Ok(text) = output_fault(self.alloc, run, folder, &error) {
                    self.tell(text.as_slice());
                    self.remarks.leave(self.processes, text);
                }
                None
            }
        }
    }

    /// Reports a fault.
    fn set_up(&self, run: &[u8], process: Result<Command, CommandFault>) -> Option<Command>
        ensures { IfSome result (λ c. process ≡ Ok c) }
    {
        match process {
            Ok(process) => Some(process),
            Err(fault) => {
                self.tell_start(run, fault_text(fault));
                None
            }
        }
    }

    /// Reports why commands can't be started as this user.
    fn home_of(&self, run: &[u8], user: &[u8]) -> Option<Home>
        ensures { IfSome result (λ home. home.user ≡ user.now) }
    {
        match Home::of_user(self.processes, self.alloc, user) {
            Ok(home) => Some(home),
            Err(fault) => {
                if let Ok(text) = user_text(self.alloc, user, fault) {
                    self.tell_start(run, text.as_slice());
                }
                None
            }
        }
    }

    /// Reports why it can't be set up.
    fn process(
        &self,
        run: &[u8],
        user: Option<&[u8]>,
        command: &[u8],
        env: &[(Bytes, Bytes)],
        left: Option<u64>,
    ) -> Option<Command>
        ensures other { IfSome result (λ c. IfSome (option_copied user.entry) (λ name.
            (home : Home) × (home.user ≡ name) × IsAsUser left command.now env.now home c)) }
        ensures own { IfSome result (λ c. option_copied user.entry ≡ None
            → (option_map (program_under left) (value_of (with_shell env.now) shell_name)
            ≡ Some (command_program c))
            × (option_map (λ shell. words_under left shell ++ shell_words command.now)
            (value_of (with_shell env.now) shell_name) ≡ Some (command_args c))) }
    {
        match user {
            Some(user) => {
                let home = self.home_of(run, user)?;
                self.set_up(run, user_command(self.alloc, command, env, &home, left))
            }
            None => {
                let process = shell_command(self.alloc, command, env, self.home.as_ref(), left);
                self.set_up(run, process)
            }
        }
    }

    /// Its input is a pipe, or the null device if it has none.
    fn start(
        &self,
        run: &[u8],
        user: Option<&[u8]>,
        command: &[u8],
        has_input: bool,
        env: &[(Bytes, Bytes)],
        left: Option<u64>,
    ) -> Option<Child<P::Started>> {
        let mut shell = self.process(run, user, command, env, left)?;
        shell.stdin(if has_input {
            Stdio::piped()
        } else {
            Stdio::null()
        });
        let (out, err) = match self.open_output(run) {
            Some((out, err)) => (Stdio::from(out), Stdio::from(err)),
            None => (Stdio::from(self.out), Stdio::from(self.err)),
        };
        shell.stdout(out);
        shell.stderr(err);
        match shell.spawn(self.processes) {
            Ok(child) => Some(child),
            Err(error) => {
                if let Ok(text) = start_fault(self.alloc, &shell, &error) {
                    self.tell_start(run, text.as_slice());
                }
                None
            }
        }
    }

    /// Leaves a remark if the run was ended at its limit.
    fn end<S: OpenProcess>(
        &self,
        run: &[u8],
        child: &mut Child<S>,
        input: Option<&[u8]>,
        limit: Option<Limit>,
    ) -> Outcome
        ensures { result ≢ NotStarted }
    {
        let Some(limit) = limit else {
            return finish(child, input, self.tells_signals);
        };
        let outcome = finish(child, input, true);
        let second = unix_seconds(self.processes).unwrap_or(0);
        let Some(end) = limit_end(limit, outcome, second) else {
            return shown(outcome, self.tells_signals);
        };
        if let Ok(line) = limit_line(self.alloc, run) {
            self.remarks.leave(self.processes, line);
        }
        end
    }

    /// Leaves a remark if that fails.
    fn list(&self, run: &[u8], process: u32) {
        let listed = self.remarks.runs.add(self.processes, run, process);
        if let Err(error) = listed {
            if let Ok(text) = unlisted_text(self.alloc, run, &error) {
                self.remarks.leave(self.processes, text);
            }
        }
    }

    /// On the standard error, and as a remark.
    fn tell_start(&self, run: &[u8], why: &[u8]) {
        self.tell(why);
        if let Ok(text) = remark_text(self.alloc, run, why) {
            self.remarks.leave(self.processes, text);
        }
    }

    fn tell(&self, text: &[u8]) {
        let mut err = self.err;
        if let Ok(line) = error_line(self.alloc, text) {
            let _ = err.write_all(line.as_slice());
        }
    }
}

impl<'r, P: Processes + Files<File = File> + Clock + Wait> Runner for ShellRunner<'r, P> {
    ghost use Rattle.std.specs.Prelude.{⊤};

    // nothing is known of what the machine does
    ghost runs = { λ before words outcome behind. ⊤ };

    ghost failures = { λ r. r.failures };

    fn run(
        &mut self,
        name: &[u8],
        user: Option<&[u8]>,
        command: &[u8],
        input: Option<&[u8]>,
        env: &[(Bytes, Bytes)],
        until: Option<Minute>,
    ) -> Outcome {
        let limit = self.limit_now(until);
        match self.start(name, user, command, input.is_some(), env, left_of(limit)) {
            Some(mut child) => {
                self.list(name, child.id());
                let outcome = self.end(name, &mut child, input, limit);
                self.remarks.runs.remove(self.processes, name);
                outcome
            }
            None if self.failures.count() => Outcome::NotStarted,
            None => Outcome::Ended,
        }
    }
}

ghost use Rattle.std.specs.Prelude.{◌≡◌, ◌↔◌, ◌++◌, ℕ, List, Some, None, IfSome, IsSome, option_map};
ghost use Rattle.std.specs.Prelude.{true, false, IfOk, IfErr, OnOk};
ghost use Rattle.std.specs.Prelude.{if◌then◌else◌, Option};
ghost use Rattle.std.specs.Option.{option_copied};
ghost use Rattle.std.specs.List.{fold};
ghost use Rattle.std.specs.Str.{bytes_eq, is_utf8};
ghost use Rattle.std.specs.Process.{command_program, command_args, command_var, command_dir};
ghost use Rattle.std.specs.Process.{clears_env, SameProgramAndArgs, SameDir, SameEnv};
ghost use Rattle.cs_machine.specs.Shell.{are_texts, with_shell, value_of};
ghost use Rattle.cs_machine.specs.Shell.{shell_name, shell_words, value_after, value_with};
ghost use Rattle.cs_machine.specs.Shell.{folder_of, user_settings, usual_settings};
ghost use Rattle.cs_machine.specs.Limit.{program_under, words_under};
ghost use Rattle.cs_machine.specs.declared.shell.CommandFault.TheVariants.{NotText as not_text};

use crate::home::Home;
use crate::limit::started_under;
use cs_civil::Bytes;
use std::alloc::{AllocError, Global};
use std::process::Command;
use std::str;

/// Why a command can't be set up.
#[derive(Clone, Copy)]
pub enum CommandFault {
    /// The command or a setting is not UTF-8 (this profile).
    NotText,
    /// The shell of another user's command has a `=`.
    BadShell,
    /// Memory ran out.
    OutOfMemory,
}

const SHELL: &str = "SHELL";

pub(crate) const USUAL_SHELL: &str = "/bin/sh";

const HOME: &str = "HOME";

/// Returns the process to start for a command (crontab(5)): the shell that its setting `SHELL`
/// names, by default `/bin/sh`, with `-c` and the command, and these settings and `SHELL` in its
/// environment; the last of a name counts. With `left` seconds, timeout(1) starts the shell.
///
/// With a home, `HOME`, `LOGNAME` and `USER` are the user's too, unless a setting says otherwise,
/// and the folder is the one that `HOME` names. All else is the daemon's.
///
/// [`NotText`](CommandFault::NotText) if and only if the command, a name, a value, or the user's
/// name or folder is not UTF-8 (this profile).
pub fn shell_command(
    alloc: Global,
    command: &[u8],
    env: &[(Bytes, Bytes)],
    home: Option<&Home>,
    left: Option<u64>,
) -> Result<Command, CommandFault>
    ensures program { IfOk result
        (λ c. option_map (program_under left) (value_of (with_shell env.now) shell_name)
        ≡ Some (command_program c)) }
    ensures words { IfOk result
        (λ c. option_map (λ shell. words_under left shell ++ shell_words command.now)
        (value_of (with_shell env.now) shell_name) ≡ Some (command_args c)) }
    ensures variables { IfOk result (λ c. (name : List ℕ) → command_var c name
        ≡ option_map Some (value_after (usual_settings (option_copied home.entry)) env.now name)) }
    ensures inherits { IfOk result (λ c. clears_env c ≡ false) }
    ensures folder { IfOk result
        (λ c. command_dir c ≡ folder_of env.now (option_copied home.entry)) }
    ensures texts { OnOk result (are_texts command.now env.now (option_copied home.entry) ≡ true) }
    ensures not_text { IfErr result
        (λ e. (e ≡ not_text) ↔ (are_texts command.now env.now (option_copied home.entry) ≡ false)) }
{
    if !are_texts(command, env, home) {
        return Err(CommandFault::NotText);
    }
    match command_of(alloc, command, env, home, left) {
        Some(command) => Ok(command),
        None => Err(CommandFault::OutOfMemory),
    }
}

pub(crate) fn is_text(bytes: &[u8]) -> bool
    ensures { result ≡ is_utf8 bytes.now }
{
    str::from_utf8(bytes).is_ok()
}

pub(crate) fn are_texts(command: &[u8], env: &[(Bytes, Bytes)], home: Option<&Home>) -> bool
    ensures { result ≡ are_texts command.now env.now (option_copied home.entry) }
{
    for (name, value) in env {
        if !is_text(name.as_slice()) || !is_text(value.as_slice()) {
            return false;
        }
    }
    match home {
        Some(home) => {
            is_text(command) && is_text(home.user.as_slice()) && is_text(home.folder.as_slice())
        }
        None => is_text(command),
    }
}

/// None if memory runs out: the texts are UTF-8.
fn command_of(
    alloc: Global,
    command: &[u8],
    env: &[(Bytes, Bytes)],
    home: Option<&Home>,
    left: Option<u64>,
) -> Option<Command>
    ensures program { IfSome result
        (λ c. option_map (program_under left) (value_of (with_shell env.now) shell_name)
        ≡ Some (command_program c)) }
    ensures words { IfSome result
        (λ c. option_map (λ shell. words_under left shell ++ shell_words command.now)
        (value_of (with_shell env.now) shell_name) ≡ Some (command_args c)) }
    ensures variables { IfSome result (λ c. (name : List ℕ) → command_var c name
        ≡ option_map Some (value_after (usual_settings (option_copied home.entry)) env.now name)) }
    ensures inherits { IfSome result (λ c. clears_env c ≡ false) }
    ensures folder { IfSome result
        (λ c. command_dir c ≡ folder_of env.now (option_copied home.entry)) }
{
    let mut shell = usual_command(alloc, shell_of(env)?, command, home, left)?;
    for (name, value) in env {
        set(&mut shell, name.as_slice(), value.as_slice())?;
    }
    set_folder(&mut shell, env, home)?;
    Some(shell)
}

/// Without the settings, in the daemon's folder.
fn usual_command(
    alloc: Global,
    program: &str,
    command: &[u8],
    home: Option<&Home>,
    left: Option<u64>,
) -> Option<Command>
    ensures program { IfSome result (λ c. command_program c ≡ program_under left program.now) }
    ensures words { IfSome result
        (λ c. command_args c ≡ words_under left program.now ++ shell_words command.now) }
    ensures variables { IfSome result (λ c. (name : List ℕ) → command_var c name
        ≡ option_map Some (value_of (usual_settings (option_copied home.entry)) name)) }
    ensures inherits { IfSome result (λ c. clears_env c ≡ false) }
    ensures folder { IfSome result (λ c. command_dir c ≡ None) }
{
    let command = str::from_utf8(command).ok()?;
    let mut shell = started_under(alloc, left, program).ok()?;
    shell.arg("-c").ok()?;
    shell.arg(command).ok()?;
    set(&mut shell, SHELL.as_bytes(), USUAL_SHELL.as_bytes())?;
    set_user(&mut shell, home)?;
    Some(shell)
}

fn set_user(shell: &mut Command, home: Option<&Home>) -> Option<()>
    ensures variables { IsSome result → (k : List ℕ) → (before : Option (List ℕ))
        → command_var shell.old k ≡ option_map Some before → command_var shell.new k
        ≡ option_map Some (fold (value_with k) before (user_settings (option_copied home.entry))) }
    ensures words { IsSome result → SameProgramAndArgs shell.old shell.new }
    ensures clears { IsSome result → clears_env shell.new ≡ clears_env shell.old }
    ensures folder { IsSome result → SameDir shell.old shell.new }
{
    let Some(home) = home else {
        return Some(());
    };
    set(shell, HOME.as_bytes(), home.folder.as_slice())?;
    set(shell, b"LOGNAME".as_slice(), home.user.as_slice())?;
    set(shell, b"USER".as_slice(), home.user.as_slice())
}

fn set_folder(shell: &mut Command, env: &[(Bytes, Bytes)], home: Option<&Home>) -> Option<()>
    requires { command_dir shell.old ≡ None }
    ensures folder { IsSome result
        → command_dir shell.new ≡ folder_of env.now (option_copied home.entry) }
    ensures words { IsSome result → SameProgramAndArgs shell.old shell.new }
    ensures variables { IsSome result → SameEnv shell.old shell.new }
{
    let Some(home) = home else {
        return Some(());
    };
    let folder = value_after(HOME.as_bytes(), home.folder.as_slice(), env);
    shell.current_dir(str::from_utf8(folder).ok()?).ok()?;
    Some(())
}

/// None if memory runs out, or name or value isn't UTF-8.
pub(crate) fn set(shell: &mut Command, name: &[u8], value: &[u8]) -> Option<()>
    ensures variables { IsSome result → (k : List ℕ) → command_var shell.new k
        ≡ (if bytes_eq name.now k then Some (Some value.now) else command_var shell.old k) }
    ensures words { IsSome result → SameProgramAndArgs shell.old shell.new }
    ensures clears { IsSome result → clears_env shell.new ≡ clears_env shell.old }
    ensures folder { IsSome result → SameDir shell.old shell.new }
{
    let Ok(name) = str::from_utf8(name) else {
        return None;
    };
    let Ok(value) = str::from_utf8(value) else {
        return None;
    };
    match shell.env(name, value) {
        Ok(_) => Some(()),
        Err(AllocError) => None,
    }
}

pub(crate) fn shell_in(env: &[(Bytes, Bytes)]) -> &[u8]
    ensures { value_of (with_shell env.now) shell_name ≡ Some result.now }
{
    value_after(SHELL.as_bytes(), USUAL_SHELL.as_bytes(), env)
}

/// None if it isn't UTF-8.
pub(crate) fn shell_of(env: &[(Bytes, Bytes)]) -> Option<&str>
    ensures { IfSome result (λ shell. value_of (with_shell env.now) shell_name ≡ Some shell.now) }
{
    str::from_utf8(shell_in(env)).ok()
}

pub(crate) fn value_after<'v>(name: &[u8], usual: &'v [u8], env: &'v [(Bytes, Bytes)]) -> &'v [u8]
    ensures { Some result.now ≡ fold (value_with name.now) (Some usual.now) env.now }
{
    let mut last = usual;
    for (set_name, value) in env {
        if set_name.as_slice() == name {
            last = value.as_slice();
        }
    }
    last
}

ghost use Rattle.std.specs.Prelude.{◌≡◌, ◌↔◌, ◌++◌, ◌∷◌, None, codes, ℕ, List, Some, IfErr, IfOk, IfSome};
ghost use Rattle.std.specs.Prelude.{IsSome, OnOk, false, map, option_map, true};
ghost use Rattle.std.specs.Process.{command_program, command_args, command_var, command_dir};
ghost use Rattle.std.specs.Process.{clears_env, SameDir, SameEnv, SameProgramAndArgs};
ghost use Rattle.cs_machine.specs.Shell.{are_texts, shell_name, usual_settings, value_of};
ghost use Rattle.cs_machine.specs.Shell.{with_shell};
ghost use Rattle.cs_machine.specs.Limit.{limited};
ghost use Rattle.cs_machine.specs.User.{IsAsUser, handed, has_equals, setsid, setting_line};
ghost use Rattle.cs_machine.specs.User.{settings_text, user_words, usual_path};
ghost use Rattle.cs_machine.specs.declared.shell.CommandFault.TheVariants.{BadShell as bad_shell};
ghost use Rattle.cs_machine.specs.declared.shell.CommandFault.TheVariants.{NotText as not_text};

use crate::home::Home;
use crate::limit::add_limited;
use crate::shell::{CommandFault, USUAL_SHELL, are_texts, set, shell_in, shell_of, value_after};
use cs_civil::Bytes;
use std::alloc::{AllocError, Global};
use std::process::Command;
use std::str;

/// Of util-linux, as the next.
const SETSID: &str = "/usr/bin/setsid";

const RUNUSER: &str = "/sbin/runuser";

/// What the user's own shell does first.
const CHANGE: &str =
    "cd -- \"$CRONSAFE_FOLDER\"; set -f; IFS='\n'; exec env -i $CRONSAFE_SETTINGS \"$@\"";

/// Unless a setting says otherwise.
const PATH: &str = "/usr/bin:/bin";

fn push_setting(text: &mut Vec<u8>, name: &[u8], value: &[u8]) -> Result<(), AllocError>
    ensures { OnOk result (text.new.items ≡ text.old.items ++ setting_line (name.now, value.now)) }
{
    text.extend_from_slice(name)?;
    text.extend_from_slice(b"=")?;
    text.extend_from_slice(value)?;
    text.extend_from_slice(b"\n")
}

fn settings_of(alloc: Global, env: &[(Bytes, Bytes)], home: &Home) -> Result<Vec<u8>, AllocError>
    ensures { IfOk result (λ text. text.items
        ≡ settings_text (usual_path ∷ (usual_settings (Some home.now) ++ env.now))) }
{
    let mut text = Vec::new(alloc);
    push_setting(&mut text, b"PATH", PATH.as_bytes())?;
    push_setting(&mut text, b"SHELL", USUAL_SHELL.as_bytes())?;
    push_setting(&mut text, b"HOME", home.folder.as_slice())?;
    push_setting(&mut text, b"LOGNAME", home.user.as_slice())?;
    push_setting(&mut text, b"USER", home.user.as_slice())?;
    for (name, value) in env {
        push_setting(&mut text, name.as_slice(), value.as_slice())?;
    }
    Ok(text)
}

pub(crate) fn add_words(started: &mut Command, words: &[&str]) -> Result<(), AllocError>
    ensures words { OnOk result
        (command_args started.new ≡ command_args started.old ++ map (λ word. word.now) words.now) }
    ensures program { OnOk result (command_program started.new ≡ command_program started.old) }
    ensures variables { OnOk result (SameEnv started.old started.new) }
    ensures folder { OnOk result (SameDir started.old started.new) }
{
    for word in words {
        started.arg(*word)?;
    }
    Ok(())
}

/// Without its variables.
fn words_for(
    alloc: Global,
    user: &str,
    shell: &str,
    command: &str,
    left: Option<u64>,
) -> Result<Command, AllocError>
    ensures program { IfOk result (λ c. command_program c ≡ setsid) }
    ensures words { IfOk result (λ c. command_args c
        ≡ limited left ++ user_words user.now shell.now command.now) }
    ensures clears { IfOk result (λ c. clears_env c ≡ true) }
    ensures variables { IfOk result (λ c. (name : List ℕ) → command_var c name ≡ None) }
    ensures folder { IfOk result (λ c. command_dir c ≡ Some (codes "/")) }
{
    let mut started = Command::new(alloc, SETSID)?;
    add_limited(alloc, &mut started, left)?;
    add_words(
        &mut started,
        &[
            RUNUSER, "-u", user, "--", "/bin/sh", "-c", CHANGE, "sh", shell, "-c", command,
        ],
    )?;
    started.env_clear();
    started.current_dir("/")?;
    Ok(started)
}

/// None if memory runs out, or a setting isn't UTF-8.
fn hand(
    started: &mut Command,
    alloc: Global,
    env: &[(Bytes, Bytes)],
    home: &Home,
    folder: &[u8],
) -> Option<()>
    requires { (name : List ℕ) → command_var started.old name ≡ None }
    ensures variables { IsSome result → (name : List ℕ) → command_var started.new name
        ≡ option_map Some (value_of (handed env.now home.now folder.now) name) }
    ensures words { IsSome result → SameProgramAndArgs started.old started.new }
    ensures clears { IsSome result → clears_env started.new ≡ clears_env started.old }
    ensures folder { IsSome result → SameDir started.old started.new }
{
    let settings = settings_of(alloc, env, home).ok()?;
    set(started, b"PATH", PATH.as_bytes())?;
    set(started, b"CRONSAFE_SETTINGS", settings.as_slice())?;
    set(started, b"CRONSAFE_FOLDER", folder)
}

/// None if memory runs out: the texts are UTF-8.
fn command_as(
    alloc: Global,
    command: &[u8],
    env: &[(Bytes, Bytes)],
    home: &Home,
    left: Option<u64>,
) -> Option<Command>
    requires { IfSome (value_of (with_shell env.now) shell_name)
        (λ shell. has_equals shell ≡ false) }
    ensures { IfSome result (IsAsUser left command.now env.now home.now) }
{
    let user = str::from_utf8(home.user.as_slice()).ok()?;
    let command = str::from_utf8(command).ok()?;
    let mut started = words_for(alloc, user, shell_of(env)?, command, left).ok()?;
    let folder = value_after(b"HOME", home.folder.as_slice(), env);
    hand(&mut started, alloc, env, home, folder)?;
    Some(started)
}

/// Returns the process to start for a command of another user, by root alone: in a session without
/// the daemon's terminal, runuser(1) starts the user's shell. With `left` seconds, timeout(1)
/// starts runuser(1), as root, so that its signals reach all in that session.
///
/// The command has these settings, `PATH`, `HOME`, `LOGNAME`, `USER` and `SHELL` alone; what runs
/// as root has none of the settings. Shell, folder and [`NotText`](CommandFault::NotText) are as in
/// [`shell_command`](crate::shell_command); [`BadShell`](CommandFault::BadShell) if the shell has a
/// `=`.
pub fn user_command(
    alloc: Global,
    command: &[u8],
    env: &[(Bytes, Bytes)],
    home: &Home,
    left: Option<u64>,
) -> Result<Command, CommandFault>
    ensures started { IfOk result (IsAsUser left command.now env.now home.now) }
    ensures texts { OnOk result (are_texts command.now env.now (Some home.now) ≡ true) }
    ensures not_text { IfErr result
        (λ e. (e ≡ not_text) ↔ (are_texts command.now env.now (Some home.now) ≡ false)) }
    ensures bad_shell { IfErr result (λ e. e ≡ bad_shell
        → (shell : List ℕ) × (value_of (with_shell env.now) shell_name ≡ Some shell)
        × (has_equals shell ≡ true)) }
{
    if !are_texts(command, env, Some(home)) {
        return Err(CommandFault::NotText);
    }
    if shell_in(env).contains(&b'=') {
        return Err(CommandFault::BadShell);
    }
    match command_as(alloc, command, env, home, left) {
        Some(command) => Ok(command),
        None => Err(CommandFault::OutOfMemory),
    }
}

ghost use Rattle.std.specs.Prelude.{◌≡◌, ℕ, List, None, Some, IfOk, OnOk, string_bytes};
ghost use Rattle.std.specs.Prelude.{codes, option_map, if◌then◌else◌, false};
ghost use Rattle.std.specs.Str.{bytes_eq};
ghost use Rattle.std.specs.Process.{command_program, command_args, command_var, command_dir};
ghost use Rattle.std.specs.Process.{clears_env, SameProgramAndArgs, SameDir};
ghost use Rattle.cs_machine.specs.Hook.{hook_value, hook_words, readable};

use std::alloc::{AllocError, Global};
use std::io;
use std::io::{Stderr, Stdout};
use std::process::{Command, Processes, Stdio};

const CALL: &str = "(eval \"$1\") </dev/null &";

const CALL_ON: &str = "(eval \"$1\") <\"$2\" &";

/// Starts a command with `/bin/sh` in the background, with these variables and streams, and doesn't
/// wait for it. Its input is the file at `input`, or the null device if there is none. In a value,
/// bytes that aren't UTF-8 become U+FFFD. An error if the shell can't be started, as where the
/// command or a value has a byte 0, or if memory runs out.
pub fn call_hook<P: Processes>(
    processes: &P,
    alloc: Global,
    command: &str,
    input: Option<&str>,
    variables: &[(&str, &[u8])],
    out: Stdout,
    err: Stderr,
) -> io::Result<()> {
    let mut shell = hook_command(alloc, command, input, variables)?;
    shell.stdin(Stdio::null());
    shell.stdout(Stdio::from(out));
    shell.stderr(Stdio::from(err));
    shell.status(processes)?;
    Ok(())
}

fn hook_command(
    alloc: Global,
    command: &str,
    input: Option<&str>,
    variables: &[(&str, &[u8])],
) -> Result<Command, AllocError>
    ensures program { IfOk result (λ c. command_program c ≡ codes "/bin/sh") }
    ensures words { IfOk result (λ c. command_args c
        ≡ hook_words command.now (option_map (λ path. path.now) input.entry)) }
    ensures variables { IfOk result (λ c. (name : List ℕ)
        → command_var c name ≡ option_map Some (hook_value variables.now name)) }
    ensures inherits { IfOk result (λ c. clears_env c ≡ false) }
    ensures folder { IfOk result (λ c. command_dir c ≡ None) }
{
    let mut shell = Command::new(alloc, "/bin/sh")?;
    set_all(alloc, &mut shell, variables)?;
    shell.arg("-c")?;
    shell.arg(if input.is_some() { CALL_ON } else { CALL })?;
    shell.arg("sh")?;
    shell.arg(command)?;
    if let Some(path) = input {
        shell.arg(path)?;
    }
    Ok(shell)
}

fn set_all(
    alloc: Global,
    shell: &mut Command,
    variables: &[(&str, &[u8])],
) -> Result<(), AllocError>
    requires { (name : List ℕ) → command_var shell.old name ≡ None }
    ensures variables { OnOk result ((name : List ℕ)
        → command_var shell.new name ≡ option_map Some (hook_value variables.now name)) }
    ensures words { OnOk result (SameProgramAndArgs shell.old shell.new) }
    ensures clears { OnOk result (clears_env shell.new ≡ clears_env shell.old) }
    ensures folder { OnOk result (SameDir shell.old shell.new) }
{
    for (name, value) in variables {
        set_readable(alloc, shell, name, value)?;
    }
    Ok(())
}

#[tactic(auto, unfolding(crate::specs::Hook::readable))]
fn readable(alloc: Global, text: &[u8]) -> Result<String, AllocError>
    ensures { IfOk result (λ shown. string_bytes shown ≡ readable text.now) }
{
    String::from_utf8_lossy(alloc, text)
}

fn set_readable(
    alloc: Global,
    shell: &mut Command,
    name: &str,
    value: &[u8],
) -> Result<(), AllocError>
    ensures variables { OnOk result ((k : List ℕ) → command_var shell.new k
        ≡ (if bytes_eq name.now k then Some (Some (readable value.now))
        else command_var shell.old k)) }
    ensures words { OnOk result (SameProgramAndArgs shell.old shell.new) }
    ensures clears { OnOk result (clears_env shell.new ≡ clears_env shell.old) }
    ensures folder { OnOk result (SameDir shell.old shell.new) }
{
    let value = readable(alloc, value)?;
    shell.env(name, value.as_str())?;
    Ok(())
}

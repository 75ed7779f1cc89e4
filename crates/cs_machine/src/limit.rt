ghost use Rattle.std.specs.Prelude.{◌≡◌, ◌≢◌, ◌++◌, ◌≤◌, None, ℕ, List, IfOk, IfSome, IsNone, OnOk, false};
ghost use Rattle.std.specs.Process.{command_program, command_args, command_var, command_dir};
ghost use Rattle.std.specs.Process.{clears_env, SameEnv, SameDir};
ghost use Rattle.cs_device.specs.declared.runner.Outcome.TheVariants.{NotStarted};
ghost use Rattle.cs_device.specs.declared.runner.Outcome.{Outcome as TheOutcome};
ghost use Rattle.cs_machine.specs.Limit.{EndsAs, IsLimitOf, IsUp, limit_line, limit_words, limited};
ghost use Rattle.cs_machine.specs.Limit.{program_under, seconds_left, wait_of, words_under};

use crate::as_user::add_words;
use crate::machine_clock::moved;
use cs_civil::Minute;
use cs_device::Outcome;
use std::alloc::{AllocError, Global};
use std::process::Command;

/// Of coreutils.
const TIMEOUT: &str = "/usr/bin/timeout";

/// With fewer seconds left, it kills after one.
const FEWEST: u64 = 7;

/// So many seconds before none is left it asks a command to end; it kills five later.
const MARGIN: u64 = 6;

#[derive(Clone, Copy)]
pub(crate) struct Limit {
    /// When the command started, in seconds since 1970-01-01 00:00 UTC.
    pub(crate) begun: u64,
    /// The seconds that were left then.
    pub(crate) left: u64,
}

fn seconds_left(minute: Minute, second: u64) -> u64
    ensures { result ≡ seconds_left minute second }
{
    (60 * minute.number())
        .saturating_sub(second)
        .saturating_sub(1)
}

/// None without a minute, and where that is out of range by UTC.
pub(crate) fn limit_of(offset: i16, until: Option<Minute>, second: u64) -> Option<Limit>
    ensures { IsLimitOf offset until second result }
{
    let minute = moved(offset, until, 0)?;
    Some(Limit {
        begun: second,
        left: seconds_left(minute, second),
    })
}

fn wait_of(left: u64) -> u64
    ensures value { result ≡ wait_of left }
    ensures some { 1 ≤ result }
{
    if left < FEWEST {
        return 1;
    }
    left - MARGIN
}

fn add_limit(alloc: Global, started: &mut Command, left: u64) -> Result<(), AllocError>
    ensures words { OnOk result
        (command_args started.new ≡ command_args started.old ++ limit_words left) }
    ensures program { OnOk result (command_program started.new ≡ command_program started.old) }
    ensures variables { OnOk result (SameEnv started.old started.new) }
    ensures folder { OnOk result (SameDir started.old started.new) }
{
    if left < FEWEST {
        return add_words(started, &["-s", "KILL", "1"]);
    }
    let seconds = (left - MARGIN).to_string(alloc)?;
    add_words(started, &["-k", "5", seconds.as_str()])
}

pub(crate) fn add_limited(
    alloc: Global,
    started: &mut Command,
    left: Option<u64>,
) -> Result<(), AllocError>
    ensures words { OnOk result
        (command_args started.new ≡ command_args started.old ++ limited left) }
    ensures program { OnOk result (command_program started.new ≡ command_program started.old) }
    ensures variables { OnOk result (SameEnv started.old started.new) }
    ensures folder { OnOk result (SameDir started.old started.new) }
{
    let Some(left) = left else {
        return Ok(());
    };
    add_words(started, &[TIMEOUT])?;
    add_limit(alloc, started, left)
}

/// The program's own words aren't added yet.
pub(crate) fn started_under(
    alloc: Global,
    left: Option<u64>,
    program: &str,
) -> Result<Command, AllocError>
    ensures program { IfOk result (λ c. command_program c ≡ program_under left program.now) }
    ensures words { IfOk result (λ c. command_args c ≡ words_under left program.now) }
    ensures inherits { IfOk result (λ c. clears_env c ≡ false) }
    ensures variables { IfOk result (λ c. (name : List ℕ) → command_var c name ≡ None) }
    ensures folder { IfOk result (λ c. command_dir c ≡ None) }
{
    let Some(left) = left else {
        return Command::new(alloc, program);
    };
    let mut started = Command::new(alloc, TIMEOUT)?;
    add_limit(alloc, &mut started, left)?;
    started.arg(program)?;
    Ok(started)
}

/// None unless timeout(1) has ended it.
#[tactic(auto, using(crate::proofs::Limits::no_end))]
pub(crate) fn limit_end(limit: Limit, outcome: Outcome, second: u64) -> Option<Outcome>
    ensures some { IfSome result (λ end. IsUp limit second × EndsAs outcome end) }
    ensures none { IsNone result → IsUp limit second
        → (end : TheOutcome) → ¬ (EndsAs outcome end) }
    ensures started { IfSome result (λ end. end ≢ NotStarted) }
{
    let wait = wait_of(limit.left);
    if second < limit.begun || second - limit.begun < wait - 1 {
        return None;
    }
    if outcome == Outcome::Exited(124) {
        return Some(outcome);
    }
    if outcome == Outcome::Exited(137) || outcome == Outcome::Killed(9) {
        return Some(Outcome::Exited(137));
    }
    None
}

pub(crate) fn limit_line(alloc: Global, run: &[u8]) -> Result<Vec<u8>, AllocError>
    ensures { IfOk result (λ line. line.items ≡ limit_line run.now) }
{
    let mut line = Vec::from_slice(alloc, run)?;
    line.extend_from_slice(b" was ended at its limit")?;
    Ok(line)
}

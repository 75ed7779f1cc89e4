ghost use Rattle.std.specs.Prelude.{◌≡◌, ◌++◌, ◌==◌, ℕ, List, false, codes, IfOk, IfSome};
ghost use Rattle.std.specs.Prelude.{IsNone, IsSome, ◌≢◌};
ghost use Rattle.std.specs.List.{list_any};
ghost use Rattle.std.specs.Result.{is_ok};
ghost use Rattle.cs_machine.specs.HookCall.{EndsBy, Tells, TellsEnd, TellsFailure, TellsSignal};
ghost use Rattle.cs_machine.specs.HookCall.{TellsSuccess};
ghost use Rattle.cs_machine.specs.Limit.{limit_line};
ghost use Rattle.cs_machine.specs.RunLog.{IsCalled};
ghost use Rattle.cs_machine.specs.declared.hook_call.HookCall.{HookCall as TheCall};

use crate::output::output_path;
use crate::setup::{Setup, note_of, peers_of};
use cs_civil::Bytes;
use memchr::memrchr;
use std::alloc::{AllocError, Global};

/// An event of a run for which commands of the operator's are started.
#[derive(Drop)]
pub struct HookCall {
    /// The name of the run.
    pub run: Bytes,
    /// What has happened.
    pub event: HookEvent,
    /// The path of the file for the run's output; empty if there is none.
    pub output: Bytes,
}

/// What has happened to a run.
#[derive(Drop)]
pub enum HookEvent {
    /// It has passed its declared time.
    Overrun {
        /// The jobs whose runs may meet it, such as `line 5, job backup`; empty if there are none.
        peers: Bytes,
    },
    /// It couldn't be started, ended with a status other than 0, or by a signal.
    Failure {
        /// The status as the log writes it, `none` if there is none; `signal` and its number; or
        /// `not started`.
        status: Bytes,
        /// How many seconds it took, if that is known.
        seconds: Option<u64>,
    },
    /// It was ended at its limit.
    Limit {
        /// As for an overrun, since some of it may go on.
        peers: Bytes,
    },
    /// It ended with status 0.
    Success {
        /// How many seconds it took, if that is known.
        seconds: Option<u64>,
    },
}

const MOST: usize = 256;

fn around_last_blank(text: &[u8]) -> Option<(&[u8], &[u8])>
    ensures word { IfSome result (λ p. list_any (λ b. b == 32) p.1.now ≡ false) }
    ensures parts { IfSome result (λ p. text.now ≡ p.0.now ++ codes " " ++ p.1.now) }
    ensures none { IsNone result → list_any (λ b. b == 32) text.now ≡ false }
{
    let at = memrchr(b' ', text)?;
    Some((&text[..at], &text[at + 1..]))
}

fn ended_by<'w>(words: &'w [u8], what: &[u8]) -> Option<(&'w [u8], &'w [u8])>
    ensures some { IfSome result (λ p. EndsBy words.now p.0.now what.now p.1.now) }
    ensures none { IsNone result → (run word : List ℕ) → ¬ (EndsBy words.now run what.now word) }
{
    let (front, word) = around_last_blank(words)?;
    let run = front.strip_prefix(b"ended ")?.strip_suffix(what)?;
    Some((run, word))
}

fn signalled_run(words: &[u8]) -> Option<(&[u8], &[u8])>
    ensures some { IfSome result (λ p. TellsSignal words.now p.0.now p.1.now) }
    ensures none { IsNone result → (run status : List ℕ) → ¬ (TellsSignal words.now run status) }
{
    let (run, _) = ended_by(words, b" signal")?;
    Some((run, &words[b"ended ".len() + run.len() + 1..]))
}

pub(crate) fn ended_run(words: &[u8]) -> Option<(&[u8], &[u8])>
    ensures some { IfSome result (λ p. TellsEnd words.now p.0.now p.1.now) }
    ensures none { IsNone result → (run status : List ℕ) → ¬ (TellsEnd words.now run status) }
{
    match ended_by(words, b" status") {
        Some(told) => Some(told),
        None => signalled_run(words),
    }
}

fn failed_run(words: &[u8]) -> Option<(&[u8], &[u8])>
    ensures some { IfSome result (λ p. TellsFailure words.now p.0.now p.1.now) }
    ensures none { IsNone result → (run status : List ℕ) → ¬ (TellsFailure words.now run status) }
{
    if let Some(run) = words.strip_prefix(b"not started ") {
        return Some((run, b"not started".as_slice()));
    }
    let (run, status) = ended_run(words)?;
    if status == b"0".as_slice() {
        return None;
    }
    Some((run, status))
}

fn succeeded_run(words: &[u8]) -> Option<&[u8]>
    ensures some { IfSome result (λ run. TellsSuccess words.now run.now) }
    ensures none { IsNone result → (run : List ℕ) → ¬ (TellsSuccess words.now run) }
{
    words.strip_prefix(b"ended ")?.strip_suffix(b" status 0")
}

fn limited_run(words: &[u8]) -> Option<&[u8]>
    ensures some { IfSome result (λ run. words.now ≡ limit_line run.now) }
    ensures none { IsNone result → (run : List ℕ) → words.now ≢ limit_line run }
{
    words.strip_suffix(b" was ended at its limit")
}

/// Empty where there is none.
fn output_of(alloc: Global, setup: &Setup<'_>, run: &[u8]) -> Result<Bytes, AllocError> {
    let (Some(folder), Some(note)) = (setup.output, note_of(setup.jobs, run)) else {
        return Ok(Bytes::new(alloc));
    };
    match output_path(alloc, folder, run, note.name.as_slice()) {
        Ok(path) => Bytes::from_slice(alloc, path.as_bytes()),
        Err(_) => Ok(Bytes::new(alloc)),
    }
}

fn call_with(
    alloc: Global,
    run: &[u8],
    event: HookEvent,
    setup: &Setup<'_>,
) -> Result<Option<HookCall>, AllocError>
    ensures { IfOk result (λ call. IsSome call
        × IfSome call (λ c. (c.run ≡ run.now) × (c.event ≡ event))) }
{
    let run = Bytes::from_slice(alloc, run)?;
    let output = output_of(alloc, setup, run.as_slice())?;
    Ok(Some(HookCall { run, event, output }))
}

fn call_of(
    alloc: Global,
    words: &[u8],
    seconds: Option<u64>,
    setup: &Setup<'_>,
) -> Result<Option<HookCall>, AllocError>
    ensures some { IfOk result
        (λ call. IfSome call (Tells words.now setup.now.jobs.now seconds)) }
    ensures none { IfOk result (λ call. IsNone call
        → (it : TheCall) → ¬ (Tells words.now setup.now.jobs.now seconds it)) }
{
    if let Some(run) = words.strip_prefix(b"overrun ") {
        let peers = Bytes::from_slice(alloc, peers_of(setup.jobs, run))?;
        return call_with(alloc, run, HookEvent::Overrun { peers }, setup);
    }
    if let Some((run, status)) = failed_run(words) {
        let status = Bytes::from_slice(alloc, status)?;
        return call_with(alloc, run, HookEvent::Failure { status, seconds }, setup);
    }
    if let Some(run) = succeeded_run(words) {
        return call_with(alloc, run, HookEvent::Success { seconds }, setup);
    }
    let Some(run) = limited_run(words) else {
        return Ok(None);
    };
    let peers = Bytes::from_slice(alloc, peers_of(setup.jobs, run))?;
    call_with(alloc, run, HookEvent::Limit { peers }, setup)
}

/// Keeps the call for a line, if there are hooks and fewer than 256 calls. `seconds` is the time of
/// the run that the line ends, if that is known.
pub(crate) fn note_call(
    alloc: Global,
    calls: &mut Vec<HookCall>,
    words: &[u8],
    seconds: Option<u64>,
    setup: &Setup<'_>,
) -> Result<(), AllocError>
    ensures { IsCalled setup.now words.now seconds (is_ok result) calls.old.items calls.new.items }
{
    if !setup.has_hooks {
        return Ok(());
    }
    let Some(call) = call_of(alloc, words, seconds, setup)? else {
        return Ok(());
    };
    if calls.len() < MOST {
        calls.push(call)?;
    }
    Ok(())
}

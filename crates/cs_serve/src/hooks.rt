//! Hooks: commands of the operator's that are started at what happens to a run.
ghost use Rattle.std.specs.Prelude.{◌≡◌, [], ◌∷◌, ◌++◌, IfOk, IsTrue, List, OnOk, flat_map, map};
ghost use Rattle.std.specs.Prelude.{option_map, ⊤};
ghost use Rattle.cs_args.specs.Asked.{asked_run};
ghost use Rattle.cs_machine.specs.Setup.{note_of};
ghost use Rattle.cs_serve.specs.Hooks.{Hook, ask_in, asks, given, hook_line, hook_of};
ghost use Rattle.cs_serve.specs.Hooks.{hook_variables, hooks_along, hooks_of, key_of};
ghost use Rattle.cs_serve.specs.Hooks.{known_after, mail_for};
ghost use Rattle.cs_serve.specs.Hooks.{outcome, seconds_of, seconds_text, seen, words_of};

use crate::diary::Hand;
use crate::failing::{called_at, is_quiet, remember};
use cs_args::RunWords;
use cs_civil::{Bytes, push_number};
use cs_machine::{HookCall, HookEvent, JobNote, Remarks, call_hook, note_of, unix_seconds};
use std::alloc::{AllocError, Global};
use std::io::{Stderr, Stdout, Write};
use std::process::Processes;
use std::rt::{Clock, Files};
use std::sync::Wait;
use std::{fs, str};

/// The daemon's own standard output and standard error, and where its runners leave remarks for the
/// log.
#[derive(Clone, Copy)]
pub struct Streams<'a> {
    pub out: Stdout,
    pub err: Stderr,
    pub remarks: &'a Remarks,
}

/// What people call a job, its command, and its user, empty if that is the daemon's own.
#[derive(Clone, Copy)]
struct Job<'a> {
    name: &'a [u8],
    command: &'a [u8],
    user: &'a [u8],
}

fn job_of<'a>(jobs: &'a [JobNote], run: &[u8]) -> Job<'a>
    ensures { seen result ≡ words_of (note_of run.now jobs.now) }
{
    let Some(note) = note_of(jobs, run) else {
        let none = b"".as_slice();
        return Job {
            name: none,
            command: none,
            user: none,
        };
    };
    Job {
        name: note.name.as_slice(),
        command: note.command.as_slice(),
        user: match &note.user {
            Some(user) => user.as_slice(),
            None => b"".as_slice(),
        },
    }
}

/// By which it is known from plan to plan. Neither a user nor a command has a newline.
fn key_of(alloc: Global, job: Job<'_>) -> Result<Bytes, AllocError>
    ensures { IfOk result (λ key. key ≡ key_of (seen job.entry)) }
{
    let mut key = Vec::from_slice(alloc, job.user)?;
    key.push(b'\n')?;
    key.extend_from_slice(job.name)?;
    key.push(b'\n')?;
    key.extend_from_slice(job.command)?;
    Ok(Bytes::from_vec(key))
}

/// What a hook gets.
#[derive(Clone, Copy)]
struct Facts<'a> {
    call: &'a HookCall,
    job: Job<'a>,
    /// The digits of the seconds that the run took; empty if that isn't known.
    seconds: &'a [u8],
    table: &'a str,
}

fn outcome_of(event: &HookEvent) -> (&str, &[u8])
    ensures { (result.0.now, result.1.now) ≡ outcome event.now }
{
    match event {
        HookEvent::Overrun { peers } => ("CRONSAFE_MAY_MEET", peers.as_slice()),
        HookEvent::Failure { status, .. } => ("CRONSAFE_STATUS", status.as_slice()),
        HookEvent::Limit { peers } => ("CRONSAFE_MAY_MEET", peers.as_slice()),
        HookEvent::Success { .. } => ("CRONSAFE_STATUS", b"0".as_slice()),
    }
}

fn variables_of<'a>(event: &'a str, facts: Facts<'a>) -> [(&'a str, &'a [u8]); 9]
    ensures { map (λ v. (v.0.now, v.1.now)) result ≡ hook_variables event.now facts.entry.call.now
        (seen facts.entry.job) facts.entry.seconds.now facts.entry.table.now }
{
    [
        ("CRONSAFE_EVENT", event.as_bytes()),
        ("CRONSAFE_RUN", facts.call.run.as_slice()),
        outcome_of(&facts.call.event),
        ("CRONSAFE_JOB", facts.job.name),
        ("CRONSAFE_COMMAND", facts.job.command),
        ("CRONSAFE_USER", facts.job.user),
        ("CRONSAFE_SECONDS", facts.seconds),
        ("CRONSAFE_OUTPUT", facts.call.output.as_slice()),
        ("CRONSAFE_TABLE", facts.table.as_bytes()),
    ]
}

fn seconds_of(event: &HookEvent) -> Option<u64>
    ensures { result ≡ seconds_of event.now }
{
    match event {
        HookEvent::Failure { seconds, .. } => *seconds,
        HookEvent::Success { seconds } => *seconds,
        _ => None,
    }
}

fn seconds_text(alloc: Global, event: &HookEvent) -> Result<Vec<u8>, AllocError>
    ensures { IfOk result (λ text. text.items ≡ seconds_text (seconds_of event.now)) }
{
    let mut text = Vec::new(alloc);
    if let Some(seconds) = seconds_of(event) {
        push_number(alloc, &mut text, u128::from(seconds))?;
    }
    Ok(text)
}

/// An event, and the command that is started at it, if there is one.
type Ask<'a> = (&'static str, Option<&'a str>);

/// What is asked for at what has happened to a run, besides its mail. `called` is when the last
/// failure of its job was called, if the run before failed.
fn asks_for<'a>(
    words: &RunWords<'a>,
    event: &HookEvent,
    called: Option<u64>,
    now: u64,
) -> (Ask<'a>, Ask<'a>)
    ensures { given (ask_in result.0) ++ given (ask_in result.1)
        ≡ flat_map given (asks (asked_run words.now) called now event.now) }
{
    let nothing = ("", None);
    match event {
        HookEvent::Overrun { .. } => (("overrun", words.on_overrun), nothing),
        HookEvent::Limit { .. } => (("limit", words.on_limit), nothing),
        HookEvent::Failure { .. } if is_quiet(called, now) => (nothing, nothing),
        HookEvent::Failure { .. } => (("failure", words.on_failure), nothing),
        HookEvent::Success { .. } if called.is_some() => {
            (
                ("success", words.on_success),
                ("recovered", words.on_recovered),
            )
        }
        HookEvent::Success { .. } => (("success", words.on_success), nothing),
    }
}

/// The command that gets the output of a run that has ended, if there is one and the run has a file
/// for its output.
fn mail_for<'a>(words: &RunWords<'a>, call: &HookCall) -> Option<&'a str>
    ensures { option_map (λ c. c.now) result ≡ mail_for (asked_run words.now) call.now }
{
    match call.event {
        HookEvent::Overrun { .. } | HookEvent::Limit { .. } => None,
        _ if call.output.is_empty() => None,
        _ => words.mail,
    }
}

fn hook_line(alloc: Global, command: &str, is_started: bool) -> Result<Vec<u8>, AllocError>
    ensures { IfOk result (λ line. line.items ≡ hook_line command.now is_started) }
{
    let mut line = Vec::from_slice(alloc, b"outside of the plan: ".as_slice())?;
    line.extend_from_slice(if is_started {
        b"started ".as_slice()
    } else {
        b"can't start ".as_slice()
    })?;
    line.extend_from_slice(command.as_bytes())?;
    Ok(line)
}

/// Starts commands that belong to no plan.
pub(crate) trait Starter {
    ghost use Rattle.std.specs.Prelude.{List};
    ghost use Rattle.cs_serve.specs.Hooks.{Hook};

    /// What it was asked to start, in this order. A proof about any starter knows nothing else of
    /// it.
    ghost asked: { Self → List Hook → Type 0 };

    /// Starts a command with the file at this path for its input, if one is given, and with these
    /// variables. Returns whether it was started; none if that file has nothing.
    fn start(
        &mut self,
        command: &str,
        input: Option<&[u8]>,
        variables: &[(&str, &[u8])],
    ) -> Option<bool>
        ensures { (before : List Hook) → asked self.old before → asked self.new (before
            ++ (
              command.now,
              map (λ v. (v.0.now, v.1.now)) variables.now,
              option_map (λ path. path.now) input.entry,
            ) ∷ []) };
}

/// The shell, in the background.
#[derive(Drop)]
struct Shell<'a, R> {
    rt: &'a R,
    alloc: Global,
    streams: Streams<'a>,
}

impl<'a, R: Files> Shell<'a, R> {
    /// None if the file there is empty or can't be looked at.
    fn filled<'p>(&self, path: &'p [u8]) -> Option<&'p str> {
        let path = str::from_utf8(path).ok()?;
        let found = fs::metadata(self.rt, path).ok()?;
        if found.len() > 0 { Some(path) } else { None }
    }
}

impl<'a, R: Processes + Files> Starter for Shell<'a, R> {
    ghost asked = { λ _ _. ⊤ };

    fn start(
        &mut self,
        command: &str,
        input: Option<&[u8]>,
        variables: &[(&str, &[u8])],
    ) -> Option<bool> {
        let input = match input {
            Some(path) => Some(self.filled(path)?),
            None => None,
        };
        let (out, err) = (self.streams.out, self.streams.err);
        let started = call_hook(self.rt, self.alloc, command, input, variables, out, err);
        Some(started.is_ok())
    }
}

fn note_start<R: Clock + Wait, W: Write>(
    alloc: Global,
    command: &str,
    started: Option<bool>,
    hand: &mut Hand<'_, '_, R, W>,
) {
    let Some(is_started) = started else {
        return;
    };
    if let Ok(line) = hook_line(alloc, command, is_started) {
        hand.note(line.as_slice());
    }
}

/// Starts the command, if there is one, and notes that.
fn start_by<R: Clock + Wait, W: Write, S: Starter>(
    alloc: Global,
    ask: Ask<'_>,
    input: Option<&[u8]>,
    facts: Facts<'_>,
    starter: &mut S,
    hand: &mut Hand<'_, '_, R, W>,
)
    ensures { (before : List Hook) → S.asked starter.old before
        → S.asked starter.new (before ++ map (hook_of facts.entry.call.now
        (seen facts.entry.job) facts.entry.seconds.now facts.entry.table.now
        (option_map (λ path. path.now) input.entry)) (given (ask_in ask.entry))) }
{
    let (event, command) = ask;
    let Some(command) = command else {
        return;
    };
    let started = starter.start(command, input, &variables_of(event, facts));
    note_start(alloc, command, started, hand);
}

/// Starts the commands for a call, notes that, and keeps in mind whether its job fails. Where
/// memory runs out, either may be left undone.
fn start_one<R: Clock + Wait, W: Write, S: Starter>(
    alloc: Global,
    words: &RunWords<'_>,
    jobs: &[JobNote],
    now: u64,
    call: &HookCall,
    failing: &mut Vec<(Bytes, u64)>,
    starter: &mut S,
    hand: &mut Hand<'_, '_, R, W>,
) -> Result<(), AllocError>
    ensures asked { OnOk result ((before : List Hook) → S.asked starter.old before
        → S.asked starter.new (before
        ++ hooks_of (asked_run words.now) jobs.now now failing.old.items call.now)) }
    ensures known { OnOk result (failing.new.items
        ≡ known_after jobs.now now failing.old.items call.now) }
{
    let job = job_of(jobs, call.run.as_slice());
    let key = key_of(alloc, job)?;
    let called = called_at(failing.as_slice(), key.as_slice());
    let seconds = seconds_text(alloc, &call.event)?;
    let facts = Facts {
        call,
        job,
        seconds: seconds.as_slice(),
        table: words.check.table,
    };
    let (first, second) = asks_for(words, &call.event, called, now);
    start_by(alloc, first, None, facts, starter, hand);
    start_by(alloc, second, None, facts, starter, hand);
    let mail = ("mail", mail_for(words, call));
    start_by(
        alloc,
        mail,
        Some(call.output.as_slice()),
        facts,
        starter,
        hand,
    );
    remember(failing, key, &call.event, is_quiet(called, now), now)
}

/// So it is for each of these calls, in their order. Returns whether there was memory for all.
fn start_each<R: Clock + Wait, W: Write, S: Starter>(
    alloc: Global,
    words: &RunWords<'_>,
    jobs: &[JobNote],
    now: u64,
    calls: &[HookCall],
    failing: &mut Vec<(Bytes, u64)>,
    starter: &mut S,
    hand: &mut Hand<'_, '_, R, W>,
) -> bool
    ensures { let along = hooks_along (asked_run words.now) jobs.now now failing.old.items calls.now
        in IsTrue result → (failing.new.items ≡ along.1) × ((before : List Hook)
        → S.asked starter.old before → S.asked starter.new (before ++ along.0)) }
{
    let mut is_whole = true;
    for call in calls {
        let made = start_one(alloc, words, jobs, now, call, failing, starter, hand);
        is_whole &= made.is_ok();
    }
    is_whole
}

/// Starts the commands for what has happened since the last call.
pub(crate) fn call_hooks<R: Clock + Wait + Processes + Files, W: Write>(
    rt: &R,
    alloc: Global,
    words: &RunWords<'_>,
    streams: Streams<'_>,
    hand: &mut Hand<'_, '_, R, W>,
) {
    // the log is free again after each of these lines
    let calls = hand.log.lock(rt).take_calls();
    let jobs = hand.log.lock(rt).jobs();
    let now = unix_seconds(rt).unwrap_or(0);
    let mut shell = Shell { rt, alloc, streams };
    let mut failing = streams.remarks.failing.lock(rt);
    start_each(
        alloc,
        words,
        jobs,
        now,
        calls.as_slice(),
        &mut *failing,
        &mut shell,
        hand,
    );
}

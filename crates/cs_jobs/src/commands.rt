//! Runs the command of a run's job.
ghost use Rattle.std.specs.Prelude.{◌≡◌, IfOk, OnErr, option_map};
ghost use Rattle.std.specs.Option.{option_copied};
ghost use Rattle.cs_jobs.specs.Commands.{IsOfCommand, IsOfJob, RunsJob, settings_for, until_of};
ghost use Rattle.cs_device.specs.Asked.{Asked};

use crate::names::push_run_name;
use cs_anacrontab::{Anacrontab, Job};
use cs_civil::{Bytes, Minute};
use cs_crontab::{Crontab, Line, command_parts};
use cs_device::{Outcome, Runner};
use cs_history::Going;
use cs_owner::Owner;
use cs_plan::Plan;
use cs_table::{Setting, env_of};
use std::alloc::{AllocError, Global};

/// Runs the command of a run's job, with its input, its settings and its deadline, as the user of
/// its owner, if it has one.
pub fn run_command<W: Runner>(
    alloc: Global,
    plan: &Plan,
    owners: &[Owner],
    runner: &mut W,
    going: Going,
) -> Result<Outcome, AllocError>
    ensures runs { IfOk result (λ outcome.
        RunsJob W.runs plan.now owners.now going runner.old outcome runner.new) }
    ensures err { OnErr result (runner.new ≡ runner.old) }
{
    let mut name = Vec::new(alloc);
    push_run_name(alloc, &mut name, plan, going.run)?;
    let until = until_of(plan, going);
    let job = usize::from(going.run.job);
    let crontab = plan.crontab();
    if let Some(line) = crontab.lines().get(job) {
        return run_line(
            alloc,
            crontab,
            owners.get(job),
            runner,
            name.as_slice(),
            line,
            until,
        );
    }
    let anacrontab = plan.anacrontab();
    let Some(line) = anacrontab.lines().get(job - crontab.lines().len()) else {
        return Ok(Outcome::NotStarted);
    };
    run_job_line(alloc, anacrontab, runner, name.as_slice(), line, until)
}

#[tactic(auto, using(crate::proofs::Untils::past))]
fn until_of(plan: &Plan, going: Going) -> Option<Minute>
    ensures { result ≡ until_of plan.now going }
{
    let max = u64::from(plan.job_at(going.run.job).max());
    match going.since.checked_add(max) {
        Some(number) => Minute::new(number),
        None => None,
    }
}

fn settings_for<'a>(table: &'a Crontab, owner: Option<&'a Owner>) -> &'a [Setting]
    ensures { result.now ≡ settings_for table.now (option_copied owner.entry) }
{
    match owner {
        Some(owner) => owner.settings.as_slice(),
        None => table.settings(),
    }
}

fn run_line<W: Runner>(
    alloc: Global,
    table: &Crontab,
    owner: Option<&Owner>,
    runner: &mut W,
    name: &[u8],
    line: &Line,
    until: Option<Minute>,
) -> Result<Outcome, AllocError>
    ensures runs { IfOk result (λ outcome. (asked : Asked) × (asked.name ≡ name.now)
        × (asked.until ≡ until) × IsOfCommand table.now (option_copied owner.entry) line.now asked
        × W.runs runner.old asked outcome runner.new) }
    ensures err { OnErr result (runner.new ≡ runner.old) }
{
    let env = env_of(alloc, settings_for(table, owner), line.number())?;
    let (command, input) = command_parts(alloc, line.command())?;
    let user = user_of(owner);
    Ok(runner.run(
        name,
        user,
        command.as_slice(),
        lent(&input),
        env.as_slice(),
        until,
    ))
}

fn run_job_line<W: Runner>(
    alloc: Global,
    table: &Anacrontab,
    runner: &mut W,
    name: &[u8],
    line: &Job,
    until: Option<Minute>,
) -> Result<Outcome, AllocError>
    ensures runs { IfOk result (λ outcome. (asked : Asked) × (asked.name ≡ name.now)
        × (asked.until ≡ until) × IsOfJob table.now line.now asked
        × W.runs runner.old asked outcome runner.new) }
    ensures err { OnErr result (runner.new ≡ runner.old) }
{
    let env = table.env_of(alloc, line.number())?;
    Ok(runner.run(name, None, line.command(), None, env.as_slice(), until))
}

fn user_of(owner: Option<&Owner>) -> Option<&[u8]>
    ensures { option_map (λ user. user.now) result
        ≡ option_map (λ o. o.user) (option_copied owner.entry) }
{
    match owner {
        Some(owner) => Some(owner.user.as_slice()),
        None => None,
    }
}

fn lent(input: &Option<Bytes>) -> Option<&[u8]>
    ensures { option_map (λ text. text.now) result ≡ input.now }
{
    match input {
        Some(input) => Some(input.as_slice()),
        None => None,
    }
}

ghost use Rattle.std.specs.Prelude.{◌≡◌, ◌++◌, IfOk, OnOk};
ghost use Rattle.cs_plan.specs.Plan.{as_plan};
ghost use Rattle.cs_history.specs.Plan.{IsReached};
ghost use Rattle.cs_counterexample.specs.Shown.{IsTellable};
ghost use Rattle.cs_counterexample.specs.ShownText.{at_name, both_text, break_text, load_text};
ghost use Rattle.cs_counterexample.specs.ShownText.{run_name, run_text, shown_text, skip_text, together_text};

use crate::shown::Shown;
use cs_civil::{Bytes, Minute, date_text, push_number};
use cs_history::Run;
use cs_plan::{Plan, identifier_of, push_due_name};
use std::alloc::{AllocError, Global};

#[tactic(auto, unfolding(crate::specs::ShownText::at_name))]
fn push_at(text: &mut Vec<u8>, plan: &Plan, job: usize) -> Result<(), AllocError>
    ensures { OnOk result (text.new.items ≡ text.old.items ++ at_name plan.now job) }
{
    text.extend_from_slice(b"job ")?;
    text.extend_from_slice(identifier_of(plan, job))?;
    text.extend_from_slice(b" at ")
}

/// Adds `line N due ` of a cron job, `job ID at ` of an anacron job. The only error is out of
/// memory.
pub fn push_run_name(
    alloc: Global,
    text: &mut Vec<u8>,
    plan: &Plan,
    job: usize,
) -> Result<(), AllocError>
    ensures { OnOk result (text.new.items ≡ text.old.items ++ run_name plan.now job) }
{
    if job < plan.crons() {
        push_due_name(alloc, text, plan, job)
    } else {
        push_at(text, plan, job)
    }
}

#[tactic(auto, unfolding(crate::specs::ShownText::run_text))]
fn push_run(alloc: Global, text: &mut Vec<u8>, plan: &Plan, run: Run) -> Result<(), AllocError>
    requires { IsReached run.at }
    ensures { OnOk result (text.new.items ≡ text.old.items ++ run_text plan.now run) }
{
    let at = Minute::new(run.at).unwrap();
    push_run_name(alloc, text, plan, usize::from(run.job))?;
    text.extend_from_slice(&date_text(at))
}

#[tactic(auto, unfolding(crate::specs::ShownText::both_text))]
fn push_both(
    alloc: Global,
    text: &mut Vec<u8>,
    plan: &Plan,
    one: Run,
    other: Run,
) -> Result<(), AllocError>
    requires one { IsReached one.at }
    requires other { IsReached other.at }
    ensures { OnOk result (text.new.items ≡ text.old.items ++ both_text plan.now one other) }
{
    push_run(alloc, text, plan, one)?;
    text.extend_from_slice(b" and ")?;
    push_run(alloc, text, plan, other)
}

#[tactic(auto, unfolding(crate::specs::ShownText::together_text))]
fn push_together(
    alloc: Global,
    text: &mut Vec<u8>,
    plan: &Plan,
    one: Run,
    other: Run,
) -> Result<(), AllocError>
    requires one { IsReached one.at }
    requires other { IsReached other.at }
    ensures { OnOk result (text.new.items ≡ text.old.items ++ together_text plan.now one other) }
{
    push_both(alloc, text, plan, one, other)?;
    text.extend_from_slice(b" run together")
}

#[tactic(auto, unfolding(crate::specs::ShownText::load_text))]
fn push_load(alloc: Global, text: &mut Vec<u8>, plan: &Plan, load: u64) -> Result<(), AllocError>
    ensures { OnOk result (text.new.items ≡ text.old.items ++ load_text plan.now load) }
{
    text.extend_from_slice(b"load ")?;
    push_number(alloc, text, u128::from(load))?;
    text.extend_from_slice(b" of ")?;
    push_number(alloc, text, u128::from(plan.capacity()))
}

#[tactic(auto, unfolding(crate::specs::ShownText::skip_text))]
fn push_skip(alloc: Global, text: &mut Vec<u8>, plan: &Plan, run: Run) -> Result<(), AllocError>
    requires { IsReached run.at }
    ensures { OnOk result (text.new.items ≡ text.old.items ++ skip_text plan.now run) }
{
    push_run(alloc, text, plan, run)?;
    text.extend_from_slice(b" is skipped")
}

fn push_break(
    alloc: Global,
    text: &mut Vec<u8>,
    plan: &Plan,
    shown: &Shown,
) -> Result<(), AllocError>
    requires { IsTellable (as_plan plan.now) shown.now }
    ensures { OnOk result (text.new.items ≡ text.old.items ++ break_text plan.now shown.now) }
{
    match *shown {
        Shown::Together(one, other) => push_together(alloc, text, plan, one, other),
        Shown::Load(load) => push_load(alloc, text, plan, load),
        Shown::Skipped(job, due) => push_skip(alloc, text, plan, Run { job, at: due }),
    }
}

/// Formats what a script breaks, from [`prove_unsafe`](crate::prove_unsafe) with the same plan, in
/// one line without a newline: `unsafe: RUN and RUN run together`, the run that started first
/// first, `unsafe: load LOAD of CAPACITY` or `unsafe: RUN is skipped`. A run is `line N due DT` or
/// `job ID at DT`, with `YYYY-MM-DD HH:MM` for DT. The only error is out of memory.
#[tactic(auto, unfolding(crate::specs::ShownText::shown_text))]
pub fn shown_text(alloc: Global, plan: &Plan, shown: &Shown) -> Result<Bytes, AllocError>
    requires { IsTellable (as_plan plan.now) shown.now }
    ensures { IfOk result (λ text. text ≡ shown_text plan.now shown.now) }
{
    let mut text = Vec::new(alloc);
    text.extend_from_slice(b"unsafe: ")?;
    push_break(alloc, &mut text, plan, shown)?;
    Ok(Bytes::from_vec(text))
}

ghost use Rattle.std.specs.Prelude.{◌≡◌, ◌++◌, IfOk, OnOk, nat_le, sum_by};
ghost use Rattle.std.specs.Fmt.{decimal};
ghost use Rattle.std.specs.List.{count_by, find, flat_map, list_any};
ghost use Rattle.std.specs.Option.{option_map};
ghost use Rattle.cs_history.specs.Plan.{is_group};
ghost use Rattle.cs_report.specs.User.{is_behind_user};
ghost use Rattle.cs_report.specs.Warning.{begins_with_number, clocks_text, decides_nothing};
ghost use Rattle.cs_report.specs.Warning.{default_note, zone_note};
ghost use Rattle.cs_report.specs.Warning.{doubled_warning, guess_note, is_at_stake, is_contended};
ghost use Rattle.cs_report.specs.Warning.{is_unheeded, left_out_note, no_job_note, nothing_note};
ghost use Rattle.cs_report.specs.Warning.{nothing_text, number_warning, number_warning_of};
ghost use Rattle.cs_report.specs.Warning.{plan_notes, untimed_warning, user_warning_of, warning};
ghost use Rattle.cs_report.specs.Warning.{warnings, warnings_of};

use crate::user::first_behind_user;
use crate::words::is_number;
use cs_anacrontab::Anacrontab;
use cs_civil::{Bytes, push_number};
use cs_crontab::{Crontab, Line};
use cs_plan::{ClockNames, Job, Plan};
use cs_table::Setting;
use cs_table::text::word;
use std::alloc::{AllocError, Global};

/// Whether other daemons heed the setting, and it has no effect here.
pub fn is_unheeded(setting: &Setting) -> bool
    ensures { result ≡ is_unheeded setting.now }
{
    let name = setting.name();
    name == b"CRON_TZ".as_slice()
        || name == b"RANDOM_DELAY".as_slice()
        || name == b"START_HOURS_RANGE".as_slice()
}

fn push_warning(
    alloc: Global,
    text: &mut Vec<u8>,
    table: &[u8],
    setting: &Setting,
) -> Result<(), AllocError>
    ensures { OnOk result (text.new.items ≡ text.old.items ++ warning table.now setting.now) }
{
    text.extend_from_slice(b"warning: ")?;
    text.extend_from_slice(setting.name())?;
    text.extend_from_slice(b" on line ")?;
    push_number(alloc, text, u128::from(setting.number()))?;
    text.extend_from_slice(b" of the ")?;
    text.extend_from_slice(table)?;
    text.extend_from_slice(b" has no effect\n")
}

fn push_warnings(
    alloc: Global,
    text: &mut Vec<u8>,
    table: &[u8],
    settings: &[Setting],
) -> Result<(), AllocError>
    ensures { OnOk result (text.new.items ≡ text.old.items ++ warnings_of table.now settings.now) }
{
    for setting in settings {
        if is_unheeded(setting) {
            push_warning(alloc, text, table, setting)?;
        }
    }
    Ok(())
}

fn push_numbered(
    alloc: Global,
    text: &mut Vec<u8>,
    front: &[u8],
    number: u128,
    end: &[u8],
) -> Result<(), AllocError>
    ensures { OnOk result (text.new.items
        ≡ text.old.items ++ (front.now ++ (decimal number ++ end.now))) }
{
    text.extend_from_slice(front)?;
    push_number(alloc, text, number)?;
    text.extend_from_slice(end)
}

fn push_named(
    alloc: Global,
    text: &mut Vec<u8>,
    front: &[u8],
    number: u128,
    middle: &[u8],
    name: &[u8],
    end: &[u8],
) -> Result<(), AllocError>
    ensures { OnOk result (text.new.items ≡ text.old.items
        ++ (front.now ++ (decimal number ++ (middle.now ++ (name.now ++ end.now))))) }
{
    push_numbered(alloc, text, front, number, middle)?;
    text.extend_from_slice(name)?;
    text.extend_from_slice(end)
}

fn push_user_warning(alloc: Global, text: &mut Vec<u8>, lines: &[Line]) -> Result<(), AllocError>
    ensures { OnOk result (text.new.items
        ≡ text.old.items ++ user_warning_of (find (is_behind_user lines.now) lines.now)) }
{
    let Some(line) = first_behind_user(lines) else {
        return Ok(());
    };
    let (name, _) = word(line.command());
    push_named(
        alloc,
        text,
        b"warning: the command on line ",
        u128::from(line.number()),
        b" of the crontab begins with ",
        name,
        b", as in a table with a user column: see cronsafe gather\n",
    )
}

#[tactic(auto, unfolding(crate::specs::Reading::is_number))]
fn begins_with_number(line: &Line) -> bool
    ensures { result ≡ begins_with_number line.now }
{
    let (first, _) = word(line.command());
    is_number(first)
}

fn first_with_number(lines: &[Line]) -> Option<&Line>
    ensures { option_map (λ line. line.now) result ≡ find begins_with_number lines.now }
{
    lines.iter().find(|line| begins_with_number(line))
}

fn push_number_warning(alloc: Global, text: &mut Vec<u8>, line: &Line) -> Result<(), AllocError>
    ensures { OnOk result (text.new.items ≡ text.old.items ++ number_warning line.now) }
{
    let (first, _) = word(line.command());
    push_named(
        alloc,
        text,
        b"warning: the command on line ",
        u128::from(line.number()),
        b" of the crontab begins with ",
        first,
        b", as in an anacrontab: see --anacrontab\n",
    )
}

fn push_first_number_warning(
    alloc: Global,
    text: &mut Vec<u8>,
    lines: &[Line],
) -> Result<(), AllocError>
    ensures { OnOk result (text.new.items
        ≡ text.old.items ++ number_warning_of (find begins_with_number lines.now)) }
{
    match first_with_number(lines) {
        Some(line) => push_number_warning(alloc, text, line),
        None => Ok(()),
    }
}

/// The warnings of two tables, a line each: settings that other daemons heed and that have no
/// effect here, the first command that seems to follow a user, and the first that begins with a
/// number, as an anacrontab reads as a crontab if all its periods are `@` words. No text if there
/// is nothing to warn of.
pub fn warnings(
    alloc: Global,
    crontab: &Crontab,
    anacrontab: &Anacrontab,
) -> Result<Bytes, AllocError>
    ensures { IfOk result (λ text. text ≡ warnings crontab.now anacrontab.now) }
{
    let mut text = Vec::new(alloc);
    push_warnings(alloc, &mut text, b"crontab", crontab.settings())?;
    push_user_warning(alloc, &mut text, crontab.lines())?;
    push_first_number_warning(alloc, &mut text, crontab.lines())?;
    push_warnings(alloc, &mut text, b"anacrontab", anacrontab.settings())?;
    Ok(Bytes::from_vec(text))
}

#[tactic(auto, unfolding(crate::specs::Warning::left_out_note))]
fn push_left_out(alloc: Global, text: &mut Vec<u8>, number: u32) -> Result<(), AllocError>
    ensures { OnOk result (text.new.items ≡ text.old.items ++ left_out_note number) }
{
    push_numbered(
        alloc,
        text,
        b"note: line ",
        u128::from(number),
        b" is left out of the plan\n",
    )
}

fn push_all_left_out(alloc: Global, text: &mut Vec<u8>, numbers: &[u32]) -> Result<(), AllocError>
    ensures { OnOk result (text.new.items
        ≡ text.old.items ++ flat_map left_out_note numbers.now) }
{
    for number in numbers {
        push_left_out(alloc, text, *number)?;
    }
    Ok(())
}

fn push_no_job(text: &mut Vec<u8>, left_out: &[u32], jobs: usize) -> Result<(), AllocError>
    ensures { OnOk result (text.new.items ≡ text.old.items ++ no_job_note left_out.now jobs) }
{
    if left_out.is_empty() || jobs > 0 {
        return Ok(());
    }
    text.extend_from_slice(b"note: the plan has no job\n")
}

fn push_default(alloc: Global, text: &mut Vec<u8>, jobs: usize) -> Result<(), AllocError>
    ensures { OnOk result (text.new.items ≡ text.old.items ++ default_note jobs) }
{
    match jobs {
        0 => Ok(()),
        1 => text.extend_from_slice(b"note: 1 job without an entry has the default\n"),
        _ => push_numbered(
            alloc,
            text,
            b"note: ",
            jobs as u128,
            b" jobs without an entry have the default\n",
        ),
    }
}

fn push_guess(alloc: Global, text: &mut Vec<u8>, jobs: usize) -> Result<(), AllocError>
    ensures { OnOk result (text.new.items ≡ text.old.items ++ guess_note jobs) }
{
    match jobs {
        0 => Ok(()),
        1 => text.extend_from_slice(b"note: 1 longest time is a draft's guess\n"),
        _ => push_numbered(
            alloc,
            text,
            b"note: ",
            jobs as u128,
            b" longest times are a draft's guess\n",
        ),
    }
}

fn count_in(jobs: &[Job], group: u8) -> usize
    ensures { result ≡ count_by (λ job. is_group group job.group) jobs.now }
{
    jobs.iter().filter(|job| job.group() == Some(group)).count()
}

fn is_contended(plan: &Plan, group: Option<u8>) -> bool
    ensures { result ≡ is_contended plan.now group }
{
    match group {
        None => false,
        Some(number) => plan.is_exclusive(group) && count_in(plan.jobs(), number) > 1,
    }
}

fn are_at_stake(plan: &Plan) -> bool
    ensures { result ≡ list_any (is_at_stake plan.now) plan.now.jobs }
{
    plan.jobs().iter().any(|job| is_contended(plan, job.group()) || job.mode().is_skip())
}

fn fit_together(jobs: &[Job], capacity: u8) -> bool
    ensures { result ≡ nat_le (sum_by (λ job. job.weight) jobs.now) capacity }
{
    let mut left = capacity;
    for job in jobs {
        if job.weight() > left {
            return false;
        }
        left -= job.weight();
    }
    true
}

#[tactic(auto, unfolding(crate::specs::Warning::decides_nothing))]
fn decides_nothing(plan: &Plan) -> bool
    ensures { result ≡ decides_nothing plan.now }
{
    !are_at_stake(plan) && fit_together(plan.jobs(), plan.capacity())
}

fn push_both(text: &mut Vec<u8>, front: &[u8], end: &[u8]) -> Result<(), AllocError>
    ensures { OnOk result (text.new.items ≡ text.old.items ++ (front.now ++ end.now)) }
{
    text.extend_from_slice(front)?;
    text.extend_from_slice(end)
}

#[tactic(auto, unfolding(crate::specs::Warning::nothing_text))]
fn push_nothing(text: &mut Vec<u8>) -> Result<(), AllocError>
    ensures { OnOk result (text.new.items ≡ text.old.items ++ nothing_text) }
{
    push_both(
        text,
        b"note: no two jobs can conflict, unless one still runs when it starts again: no exclusive",
        b" group has two jobs, no job has mode skip, and all together fit into the capacity\n",
    )
}

fn push_nothing_note(text: &mut Vec<u8>, plan: &Plan) -> Result<(), AllocError>
    ensures { OnOk result (text.new.items ≡ text.old.items ++ nothing_note plan.now) }
{
    if decides_nothing(plan) {
        push_nothing(text)
    } else {
        Ok(())
    }
}

fn push_doubled(text: &mut Vec<u8>, doubled: &Option<Bytes>) -> Result<(), AllocError>
    ensures { OnOk result (text.new.items ≡ text.old.items ++ doubled_warning doubled.now) }
{
    match doubled {
        None => Ok(()),
        Some(name) => {
            text.extend_from_slice(b"warning: an object of the declarations has ")?;
            text.extend_from_slice(name.as_slice())?;
            text.extend_from_slice(b" twice, and the last one counts\n")
        }
    }
}

fn push_untimed(alloc: Global, text: &mut Vec<u8>, untimed: Option<u32>) -> Result<(), AllocError>
    ensures { OnOk result (text.new.items ≡ text.old.items ++ untimed_warning untimed) }
{
    match untimed {
        None => Ok(()),
        Some(number) => push_numbered(
            alloc,
            text,
            b"warning: another line has the command of line ",
            u128::from(number),
            b": add \"when\" to its entry, as cronsafe draft does\n",
        ),
    }
}

fn push_two_names(
    text: &mut Vec<u8>,
    front: &[u8],
    name: &[u8],
    middle: &[u8],
    other: &[u8],
    end: &[u8],
) -> Result<(), AllocError>
    ensures { OnOk result (text.new.items ≡ text.old.items
        ++ (front.now ++ (name.now ++ (middle.now ++ (other.now ++ end.now))))) }
{
    push_both(text, front, name)?;
    text.extend_from_slice(middle)?;
    push_both(text, other, end)
}

fn push_clocks(text: &mut Vec<u8>, plan: &[u8], other: &[u8]) -> Result<(), AllocError>
    ensures { OnOk result (text.new.items ≡ text.old.items ++ clocks_text plan.now other.now) }
{
    push_two_names(
        text,
        b"note: times are by ",
        plan,
        b" all year; those in brackets are by ",
        other,
        b"\n",
    )
}

fn push_zone(text: &mut Vec<u8>, clocks: &Option<ClockNames>, saving: u8) -> Result<(), AllocError>
    ensures { OnOk result (text.new.items ≡ text.old.items ++ zone_note clocks.now saving) }
{
    match clocks {
        Some(names) if saving > 0 => push_clocks(
            text,
            names.plan.as_slice(),
            names.other.as_slice(),
        ),
        _ => Ok(()),
    }
}

/// The notes on a plan, a line each: what seems wrong in its declarations, which lines it leaves
/// out, how many jobs have the default or a draft's guess, that no two jobs can conflict, and by
/// which clock times are if its zone has summer time.
pub fn plan_notes(alloc: Global, plan: &Plan) -> Result<Bytes, AllocError>
    ensures { IfOk result (λ text. text ≡ plan_notes plan.now) }
{
    let mut text = Vec::new(alloc);
    push_doubled(&mut text, plan.doubled())?;
    push_untimed(alloc, &mut text, plan.untimed())?;
    push_all_left_out(alloc, &mut text, plan.left_out())?;
    push_no_job(&mut text, plan.left_out(), plan.jobs().len())?;
    push_default(alloc, &mut text, plan.defaulted())?;
    push_guess(alloc, &mut text, plan.guessed())?;
    push_nothing_note(&mut text, plan)?;
    push_zone(&mut text, plan.clocks(), plan.zone().saving())?;
    Ok(Bytes::from_vec(text))
}

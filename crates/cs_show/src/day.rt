//! The subcommand `day`.
ghost use Rattle.std.specs.Prelude.{◌≡◌, ◌++◌, IfOk, OnOk, flat_map};
ghost use Rattle.cs_show.specs.DayAnswer.{anacron_text, line_text, shown, tables_text};

use crate::day_text::{add_catch_up, add_date, add_job, add_reboot};
use cs_anacrontab::Job;
use cs_args::Question;
use cs_civil::Bytes;
use cs_crontab::{Line, When};
use cs_files::{Response, Tables};
use std::alloc::{AllocError, Global};

fn add_lines(
    alloc: Global,
    text: &mut Vec<u8>,
    lines: &[Line],
    question: Question,
) -> Result<(), AllocError>
    ensures { OnOk result
        (text.new.items ≡ text.old.items ++ flat_map (line_text question) lines.now) }
{
    let (day, max) = (question.day(), question.max());
    for line in lines {
        let number = line.number();
        match line.when() {
            When::At(schedule) => add_job(alloc, text, number, schedule, day, max)?,
            When::Reboot => add_reboot(alloc, text, number)?,
        }
    }
    Ok(())
}

fn add_jobs(
    alloc: Global,
    text: &mut Vec<u8>,
    jobs: &[Job],
    question: Question,
) -> Result<(), AllocError>
    ensures { OnOk result
        (text.new.items ≡ text.old.items ++ flat_map (anacron_text question) jobs.now) }
{
    let (hours, day, max) = (question.hours(), question.day(), question.max());
    for job in jobs {
        add_catch_up(alloc, text, job.identifier(), hours, day, max)?;
    }
    Ok(())
}

#[tactic(auto, unfolding(crate::specs::DayAnswer::tables_text))]
fn tables_text(
    alloc: Global,
    lines: &[Line],
    jobs: &[Job],
    question: Question,
) -> Result<Vec<u8>, AllocError>
    ensures { IfOk result (λ text. text.items ≡ tables_text question lines.now jobs.now) }
{
    let mut text = Vec::new(alloc);
    add_date(&mut text, question.day())?;
    add_lines(alloc, &mut text, lines, question)?;
    add_jobs(alloc, &mut text, jobs, question)?;
    Ok(text)
}

/// Answers `day TABLE DATE [MAX] [--anacrontab FILE] [--from M] [--to M]`.
pub fn answer_day(
    alloc: Global,
    question: Question,
    tables: &Tables,
) -> Result<Response, AllocError>
    ensures { IfOk result (λ r. r ≡ shown question tables.now) }
{
    let (lines, jobs) = (tables.crontab.lines(), tables.jobs.lines());
    let text = tables_text(alloc, lines, jobs, question)?;
    Ok(Response::done(text, Bytes::new(alloc)))
}

//! The subcommand `day` with a rule of a time zone.
ghost use Rattle.std.specs.Prelude.{◌≡◌, ◌++◌, IfOk, OnOk, flat_map};
ghost use Rattle.cs_show.specs.WallAnswer.{IsRuleRefused, line_text, wall_shown, wall_text};

use crate::day_text::{add_date, add_reboot};
use crate::wall_text::{add_jumps, add_starts};
use cs_args::Question;
use cs_civil::Bytes;
use cs_crontab::{Line, When};
use cs_files::{Response, Status, Tables};
use cs_rule::{Clock, RuleFault};
use std::alloc::{AllocError, Global};

fn add_lines(
    alloc: Global,
    text: &mut Vec<u8>,
    lines: &[Line],
    question: Question,
    clock: &Clock,
) -> Result<(), AllocError>
    ensures { OnOk result
        (text.new.items ≡ text.old.items ++ flat_map (line_text question clock.now) lines.now) }
{
    let (date, max) = (question.day(), question.max());
    for line in lines {
        let number = line.number();
        match line.when() {
            When::At(schedule) => add_starts(alloc, text, clock, number, schedule, date, max)?,
            When::Reboot => add_reboot(alloc, text, number)?,
        }
    }
    Ok(())
}

#[tactic(auto, unfolding(crate::specs::WallAnswer::wall_text))]
fn wall_text(
    alloc: Global,
    lines: &[Line],
    question: Question,
    clock: &Clock,
) -> Result<Vec<u8>, AllocError>
    ensures { IfOk result (λ text. text.items ≡ wall_text question clock.now lines.now) }
{
    let mut text = Vec::new(alloc);
    add_date(&mut text, question.day())?;
    add_jumps(alloc, &mut text, clock, question.day())?;
    add_lines(alloc, &mut text, lines, question, clock)?;
    Ok(text)
}

/// Answers `day TABLE DATE [MAX] --zone RULE`, where RULE is the rule of this clock: when cron(8)
/// starts each line on the date that the zone's clock shows.
pub fn answer_wall(
    alloc: Global,
    question: Question,
    clock: &Clock,
    tables: &Tables,
) -> Result<Response, AllocError>
    ensures { IfOk result (λ r. r ≡ wall_shown question clock.now tables.now) }
{
    let text = wall_text(alloc, tables.crontab.lines(), question, clock)?;
    Ok(Response::done(text, Bytes::new(alloc)))
}

/// Refuses a rule that has this fault. The rule isn't printed: it may hold any byte.
pub fn refuse_rule(alloc: Global, fault: RuleFault) -> Result<Response, AllocError>
    ensures { IfOk result IsRuleRefused }
{
    let mut text = Vec::from_slice(alloc, b"zone: ".as_slice())?;
    text.extend_from_slice(fault.text().as_bytes())?;
    Response::fault(alloc, Status::BadInput, b"".as_slice(), text.as_slice())
}

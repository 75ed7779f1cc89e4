//! The subcommand `chart`.
ghost use Rattle.std.specs.Prelude.{◌≡◌, ◌≢◌, IfErr, IfOk, map};
ghost use Rattle.cs_args.specs.Asked.{asked_chart};
ghost use Rattle.cs_io.specs.Files.{AreReadInTurn, IsFresh};
ghost use Rattle.cs_files.specs.Asked.{Tells, Warns};
ghost use Rattle.cs_files.specs.Ending.{sink};
ghost use Rattle.cs_files.specs.Trouble.{CameTo, IsHonestOf};
ghost use Rattle.cs_files.specs.Turn.{chart_paths};
ghost use Rattle.cs_zone.specs.Zone.{no_zone};
ghost use Rattle.cs_chart.specs.Chart.{shown_of};
ghost use Rattle.cs_chart.specs.Answer.{FindsDrawable, IsDrawn, jobs_of};

use crate::heading::{terms_text, title};
use crate::meeting::meetings_of;
use crate::picture::{Scene, draw};
use crate::row::{Row, Terms, plan_rows, table_rows};
use crate::span::DaySpan;
use cs_args::{ChartWords, Question};
use cs_civil::{Bytes, Sequence};
use cs_files::{Fault, Response, Tables, declared_plan_from, find_tables};
use cs_io::{Inputs, Output};
use cs_place::Place;
use cs_plan::Plan;
use cs_zone::Zone;
use std::alloc::{AllocError, Global};

/// What a picture is drawn of.
#[derive(Drop)]
pub enum Drawable {
    /// Both tables, with one longest time for all jobs.
    Tables(Tables),
    /// The plan that declarations make of them, and the places of the crontab's lines.
    Plan(Plan, Sequence<Place>),
}

/// Reads both tables and then the declarations, if there are any, and writes warnings about the
/// tables to standard error.
pub fn find_drawable<'a, I: Inputs, E: Output>(
    alloc: Global,
    inputs: &mut I,
    err: &mut E,
    words: &ChartWords<'a>,
) -> Result<Drawable, Fault<'a>>
    ensures value { IsFresh (I.whole inputs.old) (I.left inputs.old)
        → Tells (λ w. Warns (I.whole inputs.old) (asked_chart words.now).day.table
        (asked_chart words.now).day.anacrontab (I.failed inputs.old)
        (I.reads inputs.old) (I.reads inputs.new) w
        × CameTo (FindsDrawable (asked_chart words.now) (I.whole inputs.old) w
        (I.failed inputs.old) (I.failed inputs.new)) result)
        (sink (E.contents err.old) (E.failed err.old))
        (sink (E.contents err.new) (E.failed err.new)) }
    ensures status { IfErr result (IsHonestOf (I.failed inputs.new) (I.reads inputs.new)) }
    ensures turn { AreReadInTurn (chart_paths (asked_chart words.now))
        (I.reads inputs.old) (I.reads inputs.new) }
{
    let tables = find_tables(alloc, inputs, err, words.day.table, words.day.anacrontab)?;
    let Some(path) = words.declarations else {
        return Ok(Drawable::Tables(tables));
    };
    let Tables {
        crontab,
        jobs,
        places,
        ..
    } = tables;
    let plan = declared_plan_from(alloc, inputs, path, crontab, jobs)?;
    Ok(Drawable::Plan(plan, places))
}

fn rows_of<'a>(
    alloc: Global,
    question: Question,
    found: &'a Drawable,
    none: &'a Zone,
) -> Result<Vec<Row<'a>>, AllocError>
    requires { none.now ≡ no_zone }
    ensures { IfOk result (λ rows. map shown_of rows.items ≡ jobs_of question found.now) }
{
    match found {
        Drawable::Tables(tables) => {
            let hours = question.hours();
            let terms = Terms {
                max: question.max(),
                from: hours.from(),
                to: hours.to(),
            };
            let (table, jobs) = (&tables.crontab, &tables.jobs);
            table_rows(alloc, table, jobs, tables.places.as_slice(), none, terms)
        }
        Drawable::Plan(plan, places) => plan_rows(alloc, plan, places.as_slice()),
    }
}

/// Answers `chart TABLE DATE [MAX] [--anacrontab FILE] [--from M] [--to M] [--days N]
/// [--declarations FILE]`. Days before 1970-01-04 and past 9999-12-31 are not drawn. The only error
/// is out of memory.
pub fn answer_chart(
    alloc: Global,
    request: &ChartWords<'_>,
    question: Question,
    found: &Drawable,
) -> Result<Response, AllocError>
    ensures drawn { IfOk result (IsDrawn question request.now.days found.now) }
    ensures done { IfOk result (λ r. r.status ≢ 6) }
{
    let span = DaySpan::new(question.day(), request.days);
    let none = Zone::none();
    let rows = rows_of(alloc, question, found, &none)?;
    let title = title(alloc, request.day.table, span)?;
    let terms = terms_text(alloc, question, found, span)?;
    let meetings = meetings_of(alloc, rows.as_slice(), span)?;
    let plan = match found {
        Drawable::Tables(_) => None,
        Drawable::Plan(plan, _) => Some(plan),
    };
    let scene = Scene {
        title: title.as_str(),
        terms: terms.as_str(),
        rows: rows.as_slice(),
        meetings: meetings.as_slice(),
        plan,
        span,
        days: request.days,
    };
    let picture = draw(alloc, &scene)?;
    Ok(Response::done(picture.into_bytes(), Bytes::new(alloc)))
}

//! What a call's files hold, read in their turn, and the warnings of them.
ghost use Rattle.std.specs.Prelude.{◌≡◌, IfErr, OnOk, option_map};
ghost use Rattle.cs_io.specs.Files.{AreReadInTurn, IsFresh};
ghost use Rattle.cs_files.specs.Asked.{FindsPlan, FindsTables, Tells, Warns};
ghost use Rattle.cs_files.specs.Ending.{sink};
ghost use Rattle.cs_files.specs.Trouble.{CameTo, IsHonestOf};
ghost use Rattle.cs_files.specs.Turn.{plan_paths, table_paths};

use crate::ending::tell;
use crate::fault::Fault;
use crate::reads::{placed_plan_and_text, read_tables_and_text};
use cs_anacrontab::Anacrontab;
use cs_civil::{Bytes, Sequence};
use cs_crontab::Crontab;
use cs_io::{Inputs, Output};
use cs_place::{Place, read_places};
use cs_plan::Plan;
use cs_report::warnings;
use std::alloc::Global;

/// Both tables.
#[derive(Drop)]
pub struct Tables {
    /// The crontab.
    pub crontab: Crontab,
    /// The anacrontab, which has no jobs where there is none.
    pub jobs: Anacrontab,
    /// The text of the crontab.
    pub text: Bytes,
    /// The places of the crontab's lines, which a gathered table has.
    pub places: Sequence<Place>,
}

/// The plan of both tables as declarations have it.
#[derive(Drop)]
pub struct Planned {
    /// The plan.
    pub plan: Plan,
    /// The places of the crontab's lines.
    pub places: Sequence<Place>,
    /// The text of the crontab.
    pub table: Bytes,
    /// The text of the declarations.
    pub declarations: Bytes,
}

/// Reads both tables, and writes their warnings to standard error.
pub fn find_tables<'a, I: Inputs, E: Output>(
    alloc: Global,
    inputs: &mut I,
    err: &mut E,
    table: &'a str,
    anacrontab: Option<&'a str>,
) -> Result<Tables, Fault<'a>>
    ensures value { IsFresh (I.whole inputs.old) (I.left inputs.old)
        → Tells (λ w. Warns (I.whole inputs.old) table.now
        (option_map (λ path. path.now) anacrontab.entry) (I.failed inputs.old)
        (I.reads inputs.old) (I.reads inputs.new) w
        × CameTo (FindsTables (I.whole inputs.old) table.now
        (option_map (λ path. path.now) anacrontab.entry) w
        (I.failed inputs.old) (I.failed inputs.new)) result)
        (sink (E.contents err.old) (E.failed err.old))
        (sink (E.contents err.new) (E.failed err.new)) }
    ensures works { OnOk result (I.failed inputs.new ≡ I.failed inputs.old) }
    ensures whole { I.whole inputs.new ≡ I.whole inputs.old }
    ensures fresh { OnOk result (IsFresh (I.whole inputs.old) (I.left inputs.old)
        → IsFresh (I.whole inputs.new) (I.left inputs.new)) }
    ensures status { IfErr result (IsHonestOf (I.failed inputs.new) (I.reads inputs.new)) }
    ensures turn { AreReadInTurn
        (table_paths table.now (option_map (λ path. path.now) anacrontab.entry))
        (I.reads inputs.old) (I.reads inputs.new) }
{
    let (tables, text) = read_tables_and_text(alloc, inputs, table, anacrontab)?;
    let warnings = warnings(alloc, &tables.0, &tables.1)?;
    tell(err, warnings.as_slice());
    let places = read_places(alloc, text.as_slice(), &tables.0)?;
    let (crontab, jobs) = tables;
    Ok(Tables {
        crontab,
        jobs,
        text: Bytes::from_vec(text),
        places,
    })
}

/// Reads both tables and then the declarations at a path, and writes the tables' warnings to
/// standard error.
pub fn find_plan<'a, I: Inputs, E: Output>(
    alloc: Global,
    inputs: &mut I,
    err: &mut E,
    table: &'a str,
    anacrontab: Option<&'a str>,
    declarations: &'a str,
) -> Result<Planned, Fault<'a>>
    ensures value { IsFresh (I.whole inputs.old) (I.left inputs.old)
        → Tells (λ w. Warns (I.whole inputs.old) table.now
        (option_map (λ path. path.now) anacrontab.entry) (I.failed inputs.old)
        (I.reads inputs.old) (I.reads inputs.new) w
        × CameTo (FindsPlan (I.whole inputs.old) table.now
        (option_map (λ path. path.now) anacrontab.entry) declarations.now w
        (I.failed inputs.old) (I.failed inputs.new)) result)
        (sink (E.contents err.old) (E.failed err.old))
        (sink (E.contents err.new) (E.failed err.new)) }
    ensures works { OnOk result (I.failed inputs.new ≡ I.failed inputs.old) }
    ensures whole { I.whole inputs.new ≡ I.whole inputs.old }
    ensures fresh { OnOk result (IsFresh (I.whole inputs.old) (I.left inputs.old)
        → IsFresh (I.whole inputs.new) (I.left inputs.new)) }
    ensures status { IfErr result (IsHonestOf (I.failed inputs.new) (I.reads inputs.new)) }
    ensures turn { AreReadInTurn (plan_paths table.now
        (option_map (λ path. path.now) anacrontab.entry) declarations.now)
        (I.reads inputs.old) (I.reads inputs.new) }
{
    let tables = find_tables(alloc, inputs, err, table, anacrontab)?;
    let Tables {
        crontab,
        jobs,
        text,
        places,
    } = tables;
    let (plan, terms) = placed_plan_and_text(
        alloc,
        inputs,
        declarations,
        crontab,
        jobs,
        places.as_slice(),
    )?;
    Ok(Planned {
        plan,
        places,
        table: text,
        declarations: Bytes::from_vec(terms),
    })
}

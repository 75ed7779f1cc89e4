//! The subcommand `gather`.
ghost use Rattle.std.specs.Prelude.{◌≡◌, ◌<◌, ◌≤◌, ◌++◌, IfErr, IfOk, IfSome, IsFalse, IsSome};
ghost use Rattle.std.specs.Prelude.{IsTrue, List, OnOk, false, length, map, ℕ};
ghost use Rattle.cs_args.specs.Asked.{asked_gather};
ghost use Rattle.cs_table.specs.declared.limits.TheConstants.{MAX_TABLE};
ghost use Rattle.cs_io.specs.Files.{AreReadInTurn, IsFresh, IsReadAlone};
ghost use Rattle.cs_files.specs.Trouble.{IsHonest, IsHonestOf, gathered_trouble, trouble};
ghost use Rattle.cs_files.specs.Turn.{AreReadToGather, gather_paths};
ghost use Rattle.cs_gather.specs.Answer.{Adds, AllAdded, AnswersGather, FirstStops};
ghost use Rattle.cs_gather.specs.Answer.{GathersAll, ShowsGathered, Stops, sum_of};
ghost use Rattle.cs_gather.specs.Tables.{AreNamed};

use crate::confirm::says;
use crate::gathering::{GatherFault, Gathering};
use crate::given::{Given, push_named};
use crate::note::{push_ignored, push_warnings};
use crate::parts::parts_asked;
use crate::root::tables_below;
use crate::table::read_table;
use cs_args::GatherWords;
use cs_civil::Bytes;
use cs_crontab::LineFault;
use cs_diagnostics::{File, FirstFault, TableKind, table_lines};
use cs_files::{Fault, Response, Status, bytes_at};
use cs_io::Folders;
use cs_place::MARK;
use cs_system::SystemFault;
use cs_table::{MAX_TABLE, TableFault};
use std::alloc::{AllocError, Global};

/// A fault with the lines that show it. Up to its user a line of a system table is like one of a
/// user's table.
fn shown<'a>(
    alloc: Global,
    path: &'a str,
    bytes: &[u8],
    fault: GatherFault,
) -> Result<Fault<'a>, AllocError>
    ensures { IfOk result (λ shown. (lines : List ℕ)
        × (trouble shown ≡ gathered_trouble path.now fault lines)) }
{
    let TableFault::At {
        line,
        column,
        length,
        fault: inner,
    } = fault
    else {
        return Err(AllocError);
    };
    let is_setting = matches!(inner, SystemFault::Line(LineFault::BadSetting));
    let first = FirstFault::of(line, column, length, is_setting, inner.text());
    let file = File { path, bytes };
    let lines = table_lines(alloc, &file, TableKind::Crontab, &first)?;
    Ok(Fault::Gathered(path, fault, Some(lines)))
}

/// Ignores a table with this fault and notes it, if the table was found below the root folder and
/// isn't too long. Returns whether it did.
fn ignores(
    alloc: Global,
    given: &Given,
    bytes: &[u8],
    fault: &Fault<'_>,
    gathering: &mut Gathering,
    notes: &mut Vec<u8>,
) -> Result<bool, AllocError>
    ensures found { IfOk result (λ is. IsTrue is
        → IsSome given.now.below × (length bytes.now ≤ MAX_TABLE)) }
    ensures shown { IfOk result (λ is. IsTrue is → IsSome (trouble fault.now)) }
    ensures ignored { IfOk result (λ is. IsTrue is
        → (gathering.new.commands.items ≡ gathering.old.commands.items)
        × (gathering.new.is_whole ≡ false)) }
    ensures stops { IfOk result (λ is. IsFalse is
        → IsSome given.now.below → MAX_TABLE < length bytes.now) }
{
    if !given.is_found() {
        return Ok(false);
    }
    if bytes.len() > MAX_TABLE {
        return Ok(false);
    }
    let shown = fault.response(alloc, b"".as_slice())?;
    notes.extend_from_slice(shown.err())?;
    push_ignored(notes, given.path(), b"", "it has a fault")?;
    gathering.is_whole = false;
    Ok(true)
}

/// Reads a table and adds its commands, with their parts if a root folder is given, or ignores it.
fn add_table<'a, I: Folders>(
    alloc: Global,
    inputs: &mut I,
    root: Option<&str>,
    given: &'a Given,
    gathering: &mut Gathering,
    notes: &mut Vec<u8>,
) -> Result<(), Fault<'a>>
    ensures adds { IsFresh (I.whole inputs.old) (I.left inputs.old) → OnOk result
        (Adds (I.whole inputs.old) given.now (sum_of gathering.old) (sum_of gathering.new)) }
    ensures stops { IsFresh (I.whole inputs.old) (I.left inputs.old)
        → IfErr result (λ e. IfSome (trouble e) (Stops (I.whole inputs.old)
        (I.failed inputs.new) given.now (sum_of gathering.old))) }
    ensures whole { I.whole inputs.new ≡ I.whole inputs.old }
    ensures fresh { OnOk result (IsFresh (I.whole inputs.old) (I.left inputs.old)
        → IsFresh (I.whole inputs.new) (I.left inputs.new)) }
    ensures status { IfErr result (IsHonestOf (I.failed inputs.new) (I.reads inputs.new)) }
    ensures alone { IsReadAlone given.now.path (I.reads inputs.old) (I.reads inputs.new) }
{
    let path = given.path();
    let bytes = bytes_at(alloc, inputs, path, MAX_TABLE as u32)?;
    let text = bytes.as_slice();
    let table = match read_table(alloc, given, text) {
        Ok(table) => table,
        Err(fault) => {
            let shown = shown(alloc, path, text, fault)?;
            let is_ignored = ignores(alloc, given, text, &shown, gathering, notes)?;
            if is_ignored {
                return Ok(());
            }
            return Err(shown);
        }
    };
    let commands = table.commands(alloc, given)?;
    let parts = parts_asked(alloc, inputs, root, path, commands.as_slice(), notes)?;
    let name = given.name();
    match gathering.add(alloc, name, text, commands, parts.as_slice()) {
        Ok(()) => {
            let is_open = path != "-" && inputs.is_open_to_others(path);
            Ok(push_warnings(alloc, notes, path, text, is_open, &table)?)
        }
        Err(fault) => Err(shown(alloc, path, text, fault)?),
    }
}

/// Adds the commands of tables in turn.
fn add_tables<'a, I: Folders>(
    alloc: Global,
    inputs: &mut I,
    root: Option<&str>,
    tables: &'a [Given],
    gathering: &mut Gathering,
    notes: &mut Vec<u8>,
) -> Result<(), Fault<'a>>
    ensures adds { IsFresh (I.whole inputs.old) (I.left inputs.old) → OnOk result
        (AllAdded (I.whole inputs.old) tables.now (sum_of gathering.old)
        (sum_of gathering.new)) }
    ensures stops { IsFresh (I.whole inputs.old) (I.left inputs.old)
        → IfErr result (λ e. IfSome (trouble e) (FirstStops (I.whole inputs.old)
        (I.failed inputs.new) tables.now (sum_of gathering.old))) }
    ensures status { IfErr result (IsHonestOf (I.failed inputs.new) (I.reads inputs.new)) }
    ensures turn { AreReadInTurn (map (λ given. given.path) tables.now)
        (I.reads inputs.old) (I.reads inputs.new) }
{
    let mut rest = tables;
    while let [given, later @ ..] = rest {
        add_table(alloc, inputs, root, given, gathering, notes)?;
        rest = later;
    }
    Ok(())
}

fn show(alloc: Global, gathering: Gathering, notes: Vec<u8>) -> Result<Response, AllocError>
    ensures { IfOk result (ShowsGathered (sum_of gathering)) }
{
    if says(alloc, &gathering.text, &gathering.commands)? {
        let notes = Bytes::from_vec(notes);
        if gathering.is_whole {
            return Ok(Response::done(gathering.text, notes));
        }
        return Ok(Response::refused(gathering.text, notes));
    }
    let fault = b"the gathered table reads otherwise than its parts".as_slice();
    Response::fault(alloc, Status::Unknown, notes.as_slice(), fault)
}

/// Gathers the tables that were found and those of the words, after the notes.
fn gather<I: Folders>(
    alloc: Global,
    request: &GatherWords<'_>,
    inputs: &mut I,
    found: Vec<Given>,
    notes: Vec<u8>,
) -> Result<Response, AllocError>
    ensures value { IsFresh (I.whole inputs.old) (I.left inputs.old)
        → IfOk result (λ ending. (named : _) × AreNamed (asked_gather request.now) named
        × GathersAll (I.whole inputs.old) (I.failed inputs.new) (found.items ++ named) ending) }
    ensures status { IfOk result (IsHonest (I.failed inputs.new) (I.reads inputs.new)) }
    ensures turn { AreReadInTurn
        (map (λ given. given.path) found.items ++ gather_paths (asked_gather request.now))
        (I.reads inputs.old) (I.reads inputs.new) }
{
    let mut notes = notes;
    let mut tables = found;
    push_named(alloc, request, &mut tables)?;
    let all = tables.as_slice();
    let mut gathering = Gathering {
        text: Vec::from_slice(alloc, MARK.as_bytes())?,
        commands: Vec::new(alloc),
        is_whole: true,
    };
    match add_tables(alloc, inputs, request.root, all, &mut gathering, &mut notes) {
        Ok(()) => show(alloc, gathering, notes),
        Err(fault) => fault.response(alloc, notes.as_slice()),
    }
}

/// Answers `gather [--root DIR] [--system FILE].. [--user FILE]..`. The only error is out of
/// memory.
pub fn answer_gather<I: Folders>(
    alloc: Global,
    request: &GatherWords<'_>,
    inputs: &mut I,
) -> Result<Response, AllocError>
    ensures value { IsFresh (I.whole inputs.old) (I.left inputs.old)
        → IfOk result (AnswersGather (asked_gather request.now) I.tree
        (I.whole inputs.old) (I.failed inputs.new)) }
    ensures status { IfOk result (IsHonest (I.failed inputs.new) (I.reads inputs.new)) }
    ensures turn { AreReadToGather (asked_gather request.now)
        (I.reads inputs.old) (I.reads inputs.new) }
{
    let mut notes = Vec::new(alloc);
    let Some(root) = request.root else {
        return gather(alloc, request, inputs, Vec::new(alloc), notes);
    };
    match tables_below(alloc, inputs, root, &mut notes) {
        Ok(found) => {
            let tables = found.as_slice();
            if tables.is_empty() {
                return Ok(Response::refused(Vec::new(alloc), Bytes::from_vec(notes)));
            }
            gather(alloc, request, inputs, found, notes)
        }
        Err(unlisted) => unlisted.response(alloc, notes.as_slice()),
    }
}

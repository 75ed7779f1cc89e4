//! The subcommand `lint`.
ghost use Rattle.std.specs.Prelude.{◌≡◌, ◌≢◌, ◌≤◌, ◌++◌, ℕ, List, [], Option, true, IfErr, IfOk, IfSome, OnOk, Some, is_none, length, map, option_map};
ghost use Rattle.cs_args.specs.Asked.{asked_lint};
ghost use Rattle.cs_table.specs.declared.limits.TheConstants.{MAX_TABLE};
ghost use Rattle.cs_io.specs.Files.{AreReadInTurn, IsFresh};
ghost use Rattle.cs_lint.specs.Refused.{Finds, Judges};
ghost use Rattle.cs_files.specs.Response.{status_of};
ghost use Rattle.cs_files.specs.Trouble.{IsHonest, IsHonestOf, trouble};
ghost use Rattle.cs_files.specs.Turn.{lint_paths, some_path, table_paths};
ghost use Rattle.cs_explain.specs.Odd.{odd_named};
ghost use Rattle.cs_lint.specs.Answer.{AnswersLint, AreHeld, AreHeldTables, AreNamed};
ghost use Rattle.cs_lint.specs.Answer.{IfKnown, IsLinted, IsNoName, IsNoNameIn, IsShort, IsSomeUpTo};
ghost use Rattle.cs_lint.specs.Answer.{IsTrueOf, IsUnreadFile, IsUnreadZone, IsUnreadable};
ghost use Rattle.cs_lint.specs.Answer.{LintsFiles, no_name_in};

use crate::changes::{Change, changes_in};
use crate::files::{Report, Texts, told_of};
use crate::refusal::{Looked, Refusal, look_at};
use crate::wanted::{Asked, Wanted};
use cs_args::{Format, LintWords};
use cs_civil::Bytes;
use cs_explain::{nearest_odd, no_such_name, odd_name};
use cs_files::{Fault, Response, Status, all_bytes_at, bytes_at};
use cs_findings::{Finding, TableStatus, written};
use cs_io::Inputs;
use cs_plan::Plan;
use cs_table::MAX_TABLE;
use jiff_core::Timestamp;
use std::alloc::{AllocError, Global};

/// Reads at most one byte more than an anacrontab may have.
fn jobs_at<'a, I: Inputs>(
    alloc: Global,
    inputs: &mut I,
    path: Option<&'a str>,
) -> Result<Option<Vec<u8>>, Fault<'a>>
    ensures held { IsFresh (I.whole inputs.old) (I.left inputs.old)
        → IfOk result (λ jobs. IfKnown (I.whole inputs.old)
        (option_map (λ path. path.now) path.entry)
        (IsSomeUpTo (option_map (λ v. v.items) jobs))) }
    ensures works { OnOk result (I.failed inputs.new ≡ I.failed inputs.old) }
    ensures whole { I.whole inputs.new ≡ I.whole inputs.old }
    ensures fresh { IfOk result (λ jobs. IsShort (option_map (λ v. v.items) jobs)
        → IsFresh (I.whole inputs.old) (I.left inputs.old)
        → IsFresh (I.whole inputs.new) (I.left inputs.new)) }
    ensures status { IfErr result (IsHonestOf (I.failed inputs.new) (I.reads inputs.new)) }
    ensures told { IfErr result IsUnreadFile }
    ensures turn { AreReadInTurn (some_path (option_map (λ path. path.now) path.entry))
        (I.reads inputs.old) (I.reads inputs.new) }
{
    match path {
        Some(path) => Ok(Some(bytes_at(alloc, inputs, path, MAX_TABLE as u32)?)),
        None => Ok(None),
    }
}

fn declarations_at<'a, I: Inputs>(
    alloc: Global,
    inputs: &mut I,
    path: Option<&'a str>,
) -> Result<Option<Vec<u8>>, Fault<'a>>
    ensures held { IsFresh (I.whole inputs.old) (I.left inputs.old)
        → IfOk result (λ declarations. IfKnown (I.whole inputs.old)
        (option_map (λ path. path.now) path.entry)
        (λ text. option_map (λ v. v.items) declarations ≡ text)) }
    ensures works { OnOk result (I.failed inputs.new ≡ I.failed inputs.old) }
    ensures whole { I.whole inputs.new ≡ I.whole inputs.old }
    ensures fresh { OnOk result (IsFresh (I.whole inputs.old) (I.left inputs.old)
        → IsFresh (I.whole inputs.new) (I.left inputs.new)) }
    ensures status { IfErr result (IsHonestOf (I.failed inputs.new) (I.reads inputs.new)) }
    ensures told { IfErr result IsUnreadFile }
    ensures turn { AreReadInTurn (some_path (option_map (λ path. path.now) path.entry))
        (I.reads inputs.old) (I.reads inputs.new) }
{
    match path {
        Some(path) => Ok(Some(all_bytes_at(alloc, inputs, path)?)),
        None => Ok(None),
    }
}

/// The next changes of the clocks of the zone whose file is at the path.
fn changes_at<'a, I: Inputs>(
    alloc: Global,
    inputs: &mut I,
    path: Option<&'a str>,
    now: Timestamp,
) -> Result<Vec<Change>, Fault<'a>>
    ensures works { OnOk result (I.failed inputs.new ≡ I.failed inputs.old) }
    ensures status { IfErr result (IsHonestOf (I.failed inputs.new) (I.reads inputs.new)) }
    ensures told { IfErr result (IsUnreadZone (option_map (λ path. path.now) path.entry)
        (I.failed inputs.old) (I.failed inputs.new)) }
    ensures none { IsFresh (I.whole inputs.old) (I.left inputs.old)
        → IfErr result (IsTrueOf (I.whole inputs.old)
        (option_map (λ path. path.now) path.entry)) }
    ensures turn { AreReadInTurn (some_path (option_map (λ path. path.now) path.entry))
        (I.reads inputs.old) (I.reads inputs.new) }
{
    let Some(path) = path else {
        return Ok(Vec::new(alloc));
    };
    let zone = bytes_at(alloc, inputs, path, MAX_TABLE as u32)?;
    changes_in(alloc, path, zone.as_slice(), now)
}

fn tables_at<'a, I: Inputs>(
    alloc: Global,
    inputs: &mut I,
    request: &LintWords<'a>,
) -> Result<(Vec<u8>, Option<Vec<u8>>), Fault<'a>>
    ensures held { IsFresh (I.whole inputs.old) (I.left inputs.old)
        → IfOk result (λ both. AreHeldTables (asked_lint request.now) (I.whole inputs.old)
        both.0.items (option_map (λ v. v.items) both.1)) }
    ensures works { OnOk result (I.failed inputs.new ≡ I.failed inputs.old) }
    ensures whole { I.whole inputs.new ≡ I.whole inputs.old }
    ensures fresh { IfOk result (λ both. length both.0.items ≤ MAX_TABLE
        → IsShort (option_map (λ v. v.items) both.1)
        → IsFresh (I.whole inputs.old) (I.left inputs.old)
        → IsFresh (I.whole inputs.new) (I.left inputs.new)) }
    ensures status { IfErr result (IsHonestOf (I.failed inputs.new) (I.reads inputs.new)) }
    ensures told { IfErr result IsUnreadFile }
    ensures turn { AreReadInTurn
        (table_paths (asked_lint request.now).table (asked_lint request.now).anacrontab)
        (I.reads inputs.old) (I.reads inputs.new) }
{
    let bytes = bytes_at(alloc, inputs, request.table, MAX_TABLE as u32)?;
    let jobs = jobs_at(alloc, inputs, request.anacrontab)?;
    Ok((bytes, jobs))
}

fn texts_at<'a, I: Inputs>(
    alloc: Global,
    inputs: &mut I,
    request: &LintWords<'a>,
    now: Timestamp,
) -> Result<Texts, Fault<'a>>
    ensures held { IsFresh (I.whole inputs.old) (I.left inputs.old)
        → IfOk result (λ texts. AreHeld (asked_lint request.now)
        (I.whole inputs.old) texts.table.items (option_map (λ v. v.items) texts.jobs)
        (option_map (λ v. v.items) texts.declarations)) }
    ensures works { OnOk result (I.failed inputs.new ≡ I.failed inputs.old) }
    ensures status { IfErr result (IsHonestOf (I.failed inputs.new) (I.reads inputs.new)) }
    ensures told { IsFresh (I.whole inputs.old) (I.left inputs.old)
        → IfErr result (λ fault. IfSome (trouble fault) (IsUnreadable (asked_lint request.now)
        (I.whole inputs.old) (I.failed inputs.old) (I.failed inputs.new))) }
    ensures turn { AreReadInTurn (lint_paths (asked_lint request.now))
        (I.reads inputs.old) (I.reads inputs.new) }
{
    let (table, jobs) = tables_at(alloc, inputs, request)?;
    let declarations = declarations_at(alloc, inputs, request.declarations)?;
    let changes = changes_at(alloc, inputs, request.zone, now)?;
    Ok(Texts {
        table,
        jobs,
        declarations,
        changes,
    })
}

pub(crate) fn some_bytes(text: &Option<Vec<u8>>) -> Option<&[u8]>
    ensures { option_map (λ t. t.now) result ≡ option_map (λ v. v.items) text.now }
{
    match text {
        Some(text) => Some(text.as_slice()),
        None => None,
    }
}

/// The status, where the readers' result is `plan` and something may be odd.
fn status_for(plan: &Result<Option<Plan>, Refusal>, is_odd: bool, faults_only: bool) -> Status
    ensures value { (table : List ℕ) (jobs declarations : Option (List ℕ))
        → Finds plan.now table jobs declarations
        → Judges (status_of result) table jobs declarations }
    ensures only { faults_only ≡ true → status_of result ≢ 1 }
{
    match plan {
        Err(_) => Status::BadInput,
        Ok(_) if faults_only => Status::Done,
        Ok(_) if is_odd => Status::Refused,
        Ok(_) => Status::Done,
    }
}

/// What is found in texts, and the status of a call for these alone.
#[derive(Drop)]
pub struct Linted<'a> {
    /// 3 if a reader refuses the files, 1 if something is odd that is asked for, else 0.
    pub status: Status,
    /// Lines for people; empty in another form.
    pub text: Vec<u8>,
    /// The findings in another form; none for people.
    pub findings: Vec<Finding<'a>>,
}

fn report_on<'a>(
    alloc: Global,
    request: Asked<'a, '_>,
    texts: &Texts,
    looked: &Looked,
) -> Result<Linted<'a>, AllocError>
    ensures value { (table : List ℕ) (jobs declarations : Option (List ℕ))
        → Finds looked.now.plan table jobs declarations
        → IfOk result (λ linted. Judges (status_of linted.status) table jobs declarations) }
    ensures only { IfOk result
        (λ linted. request.entry.wanted.faults_only ≡ true → status_of linted.status ≢ 1) }
{
    let Report {
        text,
        findings,
        is_odd,
    } = told_of(alloc, request, texts, looked)?;
    Ok(Linted {
        status: status_for(&looked.plan, is_odd, request.wanted.faults_only),
        text,
        findings,
    })
}

/// Finds all that is wrong or odd in texts, in the form that is asked for. The only error is out of
/// memory.
pub fn lint_texts<'a>(
    alloc: Global,
    request: Asked<'a, '_>,
    texts: &Texts,
) -> Result<Linted<'a>, AllocError>
    ensures value { IfOk result (λ linted. Judges (status_of linted.status) texts.now.table.items
        (option_map (λ v. v.items) texts.now.jobs)
        (option_map (λ v. v.items) texts.now.declarations)) }
    ensures faults { IfOk result
        (λ linted. request.entry.wanted.faults_only ≡ true → status_of linted.status ≢ 1) }
{
    let table = texts.table.as_slice();
    let jobs = some_bytes(&texts.jobs);
    let declarations = some_bytes(&texts.declarations);
    let looked = look_at(alloc, table, jobs, declarations)?;
    let linted = report_on(alloc, request, texts, &looked);
    drop(looked);
    linted
}

fn show(alloc: Global, request: &LintWords<'_>, texts: &Texts) -> Result<Response, AllocError>
    ensures value { IfOk result (IsLinted texts.now.table.items
        (option_map (λ v. v.items) texts.now.jobs)
        (option_map (λ v. v.items) texts.now.declarations)) }
    ensures faults { IfOk result (λ r. request.now.faults_only ≡ true → r.status ≢ 1) }
{
    let asked = Asked {
        table: request.table,
        declarations: request.declarations,
        anacrontab: request.anacrontab,
        wanted: Wanted {
            only: request.only.as_slice(),
            except: request.except.as_slice(),
            faults_only: request.faults_only,
        },
        format: request.format,
    };
    let Linted {
        status,
        text,
        findings,
    } = lint_texts(alloc, asked, texts)?;
    let tables = [TableStatus {
        table: request.table,
        status: status.code(),
        verdict: None,
    }];
    let text = match request.format {
        Format::Text => text,
        format => written(alloc, format, findings.as_slice(), tables.as_slice())?,
    };
    Ok(Response::told(status, text, Bytes::new(alloc)))
}

fn is_unknown(name: &str) -> bool
    ensures { result ≡ is_none (odd_named name.now) }
{
    odd_name(name).is_none()
}

fn unknown_name_in(word: &str) -> Option<&str>
    ensures { option_map (λ name. name.now) result ≡ no_name_in word.now }
{
    word.split(',').find(|name| is_unknown(name))
}

/// The first name in the words that no odd finding has.
fn unknown_in<'w>(words: &[&'w str]) -> Option<&'w str>
    ensures some { IfSome result
        (λ name. IsNoName (map (λ word. word.now) words.now) name.now) }
    ensures none { is_none result ≡ true → AreNamed (map (λ word. word.now) words.now) }
{
    for word in words {
        if let Some(name) = unknown_name_in(*word) {
            return Some(name);
        }
    }
    None
}

fn unknown_name(alloc: Global, name: &str) -> Result<Response, AllocError>
    ensures { IfOk result (λ r. (r.status ≡ 4) × (r.out ≡ [])) }
{
    let near = nearest_odd(alloc, name)?;
    Ok(Response::no_call(alloc, no_such_name(alloc, name, near)?))
}

/// The answer to a name in the words of `--only` or `--except` that no odd finding has; none if
/// there is no such name. The only error is out of memory.
pub fn refuse_names(alloc: Global, words: &[&str]) -> Result<Option<Response>, AllocError>
    ensures some { IfOk result
        (λ found. IfSome found (IsNoNameIn (map (λ word. word.now) words.now))) }
    ensures none { IfOk result
        (λ found. is_none found ≡ true → AreNamed (map (λ word. word.now) words.now)) }
{
    match unknown_in(words) {
        Some(name) => Ok(Some(unknown_name(alloc, name)?)),
        None => Ok(None),
    }
}

fn lint_files<I: Inputs>(
    alloc: Global,
    request: &LintWords<'_>,
    now: Timestamp,
    inputs: &mut I,
) -> Result<Response, AllocError>
    ensures value { IsFresh (I.whole inputs.old) (I.left inputs.old)
        → IfOk result (LintsFiles (asked_lint request.now) (I.whole inputs.old)
        (I.failed inputs.old) (I.failed inputs.new)) }
    ensures status { IfOk result (IsHonest (I.failed inputs.new) (I.reads inputs.new)) }
    ensures turn { AreReadInTurn (lint_paths (asked_lint request.now))
        (I.reads inputs.old) (I.reads inputs.new) }
{
    match texts_at(alloc, inputs, request, now) {
        Ok(texts) => Ok(show(alloc, request, &texts)?),
        Err(fault) => Ok(fault.response(alloc, b"".as_slice())?),
    }
}

/// Answers `lint TABLE [DECLS] [--anacrontab FILE] [--zone FILE] [--only NAME].. [--except NAME]..
/// [--faults-only] [--format FORMAT]`; `--zone` looks for changes of clocks after `now`. The only error is out of
/// memory.
pub fn answer_lint<I: Inputs>(
    alloc: Global,
    request: &LintWords<'_>,
    now: Timestamp,
    inputs: &mut I,
) -> Result<Response, AllocError>
    ensures value { IsFresh (I.whole inputs.old) (I.left inputs.old)
        → IfOk result (AnswersLint (asked_lint request.now) (I.whole inputs.old)
        (I.failed inputs.old) (I.failed inputs.new)) }
    ensures status { IfOk result (IsHonest (I.failed inputs.new) (I.reads inputs.new)) }
    ensures turn { AreReadInTurn (lint_paths (asked_lint request.now))
        (I.reads inputs.old) (I.reads inputs.new) }
{
    if let Some(response) = refuse_names(alloc, request.only.as_slice())? {
        return Ok(response);
    }
    if let Some(response) = refuse_names(alloc, request.except.as_slice())? {
        return Ok(response);
    }
    lint_files(alloc, request, now, inputs)
}

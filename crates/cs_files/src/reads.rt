ghost use Rattle.std.specs.Prelude.{◌≡◌, ◌≤◌, IfErr, IfOk, IfSome, OnOk, length, option_map};
ghost use Rattle.std.specs.List.{list_all, list_any};
ghost use Rattle.std.specs.Char.{is_ascii_alphabetic};
ghost use Rattle.cs_table.specs.declared.limits.TheConstants.{MAX_TABLE};
ghost use Rattle.cs_crontab.specs.Faults.{IsCrontab};
ghost use Rattle.cs_io.specs.Files.{AreReadInTurn, IsFresh, IsReadAlone};
ghost use Rattle.cs_files.specs.Reads.{HoldsJobs, IsRead, IsUnreadAt, IsUnreadWhole, MeansIt};
ghost use Rattle.cs_files.specs.Reads.{FittingIn, MeansJobTable, MeansTable, ReadsAs, TextIn, are_named};
ghost use Rattle.cs_files.specs.Reads.{ReadsDeclared, ReadsFitting, ReadsJobs, ReadsTables};
ghost use Rattle.cs_files.specs.Reads.{without_rest};
ghost use Rattle.cs_files.specs.Turn.{some_path, table_paths};
ghost use Rattle.cs_files.specs.Trouble.{CameTo, InAnacrontab, InCrontab, IsHonestOf};
ghost use Rattle.cs_files.specs.Trouble.{IsOfContent};

use crate::fault::Fault;
use crate::parts::join_placed;
use crate::shown::{anacrontab_lines, crontab_lines, declared_fault};
use cs_anacrontab::{AnacronFault, Anacrontab, Job, read_anacrontab};
use cs_crontab::{Crontab, read_crontab};
use cs_decl::{join, read_declarations};
use cs_io::{Inputs, ReadFault, read_up_to, read_whole};
use cs_place::Place;
use cs_plan::Plan;
use cs_table::MAX_TABLE;
use std::alloc::{AllocError, Global};

/// The bytes of a file, or more than `limit` of them where it is longer.
pub fn bytes_at<'a, I: Inputs>(
    alloc: Global,
    inputs: &mut I,
    path: &'a str,
    limit: u32,
) -> Result<Vec<u8>, Fault<'a>>
    ensures bytes { IfOk result (λ v. IsRead limit path.now (I.left inputs.old) v.items) }
    ensures works { OnOk result (I.failed inputs.new ≡ I.failed inputs.old) }
    ensures whole { I.whole inputs.new ≡ I.whole inputs.old }
    ensures fresh { IfOk result
        (λ v. length v.items ≤ limit → IsFresh (I.whole inputs.old) (I.left inputs.old)
        → IsFresh (I.whole inputs.new) (I.left inputs.new)) }
    ensures fails { IfErr result (IsUnreadAt path.now (I.failed inputs.new)) }
    ensures alone { IsReadAlone path.now (I.reads inputs.old) (I.reads inputs.new) }
{
    match read_up_to(alloc, inputs, path, limit) {
        Ok(bytes) => Ok(bytes),
        Err(ReadFault::CannotRead(reason)) => Err(Fault::CannotRead(path, reason)),
        Err(ReadFault::OutOfMemory) => Err(Fault::OutOfMemory),
    }
}

/// The bytes of a file of any length.
pub fn all_bytes_at<'a, I: Inputs>(
    alloc: Global,
    inputs: &mut I,
    path: &'a str,
) -> Result<Vec<u8>, Fault<'a>>
    ensures bytes { IfOk result
        (λ v. IfSome (I.left inputs.old path.now) (λ text. v.items ≡ text)) }
    ensures works { OnOk result (I.failed inputs.new ≡ I.failed inputs.old) }
    ensures whole { I.whole inputs.new ≡ I.whole inputs.old }
    ensures fresh { OnOk result (IsFresh (I.whole inputs.old) (I.left inputs.old)
        → IsFresh (I.whole inputs.new) (I.left inputs.new)) }
    ensures fails { IfErr result (IsUnreadWhole path.now (I.left inputs.old)
        (I.failed inputs.old) (I.failed inputs.new) (I.reads inputs.old) (I.reads inputs.new)) }
    ensures alone { IsReadAlone path.now (I.reads inputs.old) (I.reads inputs.new) }
{
    match read_whole(alloc, inputs, path) {
        Ok(bytes) => Ok(bytes),
        Err(ReadFault::CannotRead(reason)) => Err(Fault::CannotRead(path, reason)),
        Err(ReadFault::OutOfMemory) => Err(Fault::OutOfMemory),
    }
}

fn has_letter(text: &[u8]) -> bool
    ensures { result ≡ list_any is_ascii_alphabetic text.now }
{
    text.iter().any(|byte| byte.is_ascii_alphabetic())
}

fn all_are_named(jobs: &[Job]) -> bool
    ensures { result ≡ list_all (λ line. list_any is_ascii_alphabetic line.identifier) jobs.now }
{
    jobs.iter().all(|job| has_letter(job.identifier()))
}

fn are_named(jobs: &[Job]) -> bool
    ensures { result ≡ are_named jobs.now }
{
    !jobs.is_empty() && all_are_named(jobs)
}

/// Whether the bytes are those of an anacrontab that has jobs, the identifier of each with a
/// letter.
pub fn are_jobs(alloc: Global, bytes: &[u8]) -> Result<bool, AllocError>
    ensures { IfOk result (HoldsJobs bytes.now) }
{
    match read_anacrontab(alloc, bytes) {
        Ok(jobs) if are_named(jobs.lines()) => Ok(true),
        Ok(_) => Ok(false),
        Err(AnacronFault::OutOfMemory) => Err(AllocError),
        Err(AnacronFault::At { .. }) => Ok(false),
    }
}

fn table_in<'a>(alloc: Global, path: &str, bytes: &[u8]) -> Result<Crontab, Fault<'a>>
    ensures value { MeansIt MeansTable InCrontab bytes.now result }
    ensures status { IfErr result IsOfContent }
{
    match read_crontab(alloc, bytes) {
        Ok(table) => Ok(table),
        Err(fault) => {
            let are_jobs = are_jobs(alloc, bytes)?;
            let lines = crontab_lines(alloc, path, bytes, fault, are_jobs)?;
            Err(Fault::Crontab(fault, are_jobs, lines))
        }
    }
}

fn table_from<'a, I: Inputs>(
    alloc: Global,
    inputs: &mut I,
    path: &'a str,
) -> Result<(Crontab, Vec<u8>), Fault<'a>>
    ensures step { IsFresh (I.whole inputs.old) (I.left inputs.old)
        → CameTo (ReadsAs (I.whole inputs.old) path.now MeansTable InCrontab
        (I.failed inputs.old) (I.failed inputs.new)) (without_rest result) }
    ensures text { IsFresh (I.whole inputs.old) (I.left inputs.old)
        → IfOk result (λ found. TextIn (I.whole inputs.old) path.now found.0 found.1.items) }
    ensures means { IfOk result (λ found. IsCrontab found.1.items found.0) }
    ensures works { OnOk result (I.failed inputs.new ≡ I.failed inputs.old) }
    ensures whole { I.whole inputs.new ≡ I.whole inputs.old }
    ensures fresh { OnOk result (IsFresh (I.whole inputs.old) (I.left inputs.old)
        → IsFresh (I.whole inputs.new) (I.left inputs.new)) }
    ensures status { IfErr result (IsHonestOf (I.failed inputs.new) (I.reads inputs.new)) }
    ensures alone { IsReadAlone path.now (I.reads inputs.old) (I.reads inputs.new) }
{
    let text = bytes_at(alloc, inputs, path, MAX_TABLE as u32)?;
    let table = table_in(alloc, path, text.as_slice())?;
    Ok((table, text))
}

fn jobs_in<'a>(alloc: Global, path: &str, bytes: &[u8]) -> Result<Anacrontab, Fault<'a>>
    ensures value { MeansIt MeansJobTable InAnacrontab bytes.now result }
    ensures status { IfErr result IsOfContent }
{
    match read_anacrontab(alloc, bytes) {
        Ok(jobs) => Ok(jobs),
        Err(fault) => {
            let lines = anacrontab_lines(alloc, path, bytes, fault)?;
            Err(Fault::Anacrontab(fault, lines))
        }
    }
}

fn jobs_from<'a, I: Inputs>(
    alloc: Global,
    inputs: &mut I,
    path: &'a str,
) -> Result<Anacrontab, Fault<'a>>
    ensures step { IsFresh (I.whole inputs.old) (I.left inputs.old)
        → CameTo (ReadsAs (I.whole inputs.old) path.now MeansJobTable InAnacrontab
        (I.failed inputs.old) (I.failed inputs.new)) result }
    ensures works { OnOk result (I.failed inputs.new ≡ I.failed inputs.old) }
    ensures whole { I.whole inputs.new ≡ I.whole inputs.old }
    ensures fresh { OnOk result (IsFresh (I.whole inputs.old) (I.left inputs.old)
        → IsFresh (I.whole inputs.new) (I.left inputs.new)) }
    ensures status { IfErr result (IsHonestOf (I.failed inputs.new) (I.reads inputs.new)) }
    ensures alone { IsReadAlone path.now (I.reads inputs.old) (I.reads inputs.new) }
{
    let bytes = bytes_at(alloc, inputs, path, MAX_TABLE as u32)?;
    jobs_in(alloc, path, bytes.as_slice())
}

fn some_jobs_from<'a, I: Inputs>(
    alloc: Global,
    inputs: &mut I,
    path: Option<&'a str>,
) -> Result<Anacrontab, Fault<'a>>
    ensures step { IsFresh (I.whole inputs.old) (I.left inputs.old)
        → CameTo (ReadsJobs (I.whole inputs.old) (option_map (λ path. path.now) path.entry)
        (I.failed inputs.old) (I.failed inputs.new)) result }
    ensures works { OnOk result (I.failed inputs.new ≡ I.failed inputs.old) }
    ensures whole { I.whole inputs.new ≡ I.whole inputs.old }
    ensures fresh { OnOk result (IsFresh (I.whole inputs.old) (I.left inputs.old)
        → IsFresh (I.whole inputs.new) (I.left inputs.new)) }
    ensures status { IfErr result (IsHonestOf (I.failed inputs.new) (I.reads inputs.new)) }
    ensures turn { AreReadInTurn (some_path (option_map (λ path. path.now) path.entry))
        (I.reads inputs.old) (I.reads inputs.new) }
{
    match path {
        Some(path) => jobs_from(alloc, inputs, path),
        None => Ok(Anacrontab::none(alloc)),
    }
}

/// Both tables, and the text of the crontab.
pub fn read_tables_and_text<'a, I: Inputs>(
    alloc: Global,
    inputs: &mut I,
    table: &'a str,
    anacrontab: Option<&'a str>,
) -> Result<((Crontab, Anacrontab), Vec<u8>), Fault<'a>>
    ensures step { IsFresh (I.whole inputs.old) (I.left inputs.old)
        → CameTo (ReadsTables (I.whole inputs.old) table.now
        (option_map (λ path. path.now) anacrontab.entry)
        (I.failed inputs.old) (I.failed inputs.new)) (without_rest result) }
    ensures text { IsFresh (I.whole inputs.old) (I.left inputs.old)
        → IfOk result (λ found. TextIn (I.whole inputs.old) table.now found.0.0 found.1.items) }
    ensures means { IfOk result (λ found. IsCrontab found.1.items found.0.0) }
    ensures works { OnOk result (I.failed inputs.new ≡ I.failed inputs.old) }
    ensures whole { I.whole inputs.new ≡ I.whole inputs.old }
    ensures fresh { OnOk result (IsFresh (I.whole inputs.old) (I.left inputs.old)
        → IsFresh (I.whole inputs.new) (I.left inputs.new)) }
    ensures status { IfErr result (IsHonestOf (I.failed inputs.new) (I.reads inputs.new)) }
    ensures turn { AreReadInTurn
        (table_paths table.now (option_map (λ path. path.now) anacrontab.entry))
        (I.reads inputs.old) (I.reads inputs.new) }
{
    let (table, text) = table_from(alloc, inputs, table)?;
    let jobs = some_jobs_from(alloc, inputs, anacrontab)?;
    Ok(((table, jobs), text))
}

/// The plan of both tables as the declarations at a path have it.
pub fn declared_plan_from<'a, I: Inputs>(
    alloc: Global,
    inputs: &mut I,
    path: &'a str,
    table: Crontab,
    jobs: Anacrontab,
) -> Result<Plan, Fault<'a>>
    ensures step { IsFresh (I.whole inputs.old) (I.left inputs.old)
        → CameTo (ReadsDeclared (I.whole inputs.old) (table, jobs) path.now
        (I.failed inputs.old) (I.failed inputs.new)) result }
    ensures works { OnOk result (I.failed inputs.new ≡ I.failed inputs.old) }
    ensures whole { I.whole inputs.new ≡ I.whole inputs.old }
    ensures fresh { OnOk result (IsFresh (I.whole inputs.old) (I.left inputs.old)
        → IsFresh (I.whole inputs.new) (I.left inputs.new)) }
    ensures status { IfErr result (IsHonestOf (I.failed inputs.new) (I.reads inputs.new)) }
    ensures alone { IsReadAlone path.now (I.reads inputs.old) (I.reads inputs.new) }
{
    let bytes = all_bytes_at(alloc, inputs, path)?;
    let has_jobs = !jobs.lines().is_empty();
    let declarations = match read_declarations(alloc, bytes.as_slice()) {
        Ok(declarations) => declarations,
        Err(error) => {
            return Err(declared_fault(alloc, path, bytes.as_slice(), has_jobs, error));
        }
    };
    match join(alloc, table, jobs, declarations) {
        Ok(plan) => Ok(plan),
        Err(error) => Err(declared_fault(alloc, path, bytes.as_slice(), has_jobs, error)),
    }
}

/// Like [`declared_plan_from`], with the bytes of the declarations. A fault too if an entry has
/// other parts than the place of its line.
pub fn placed_plan_and_text<'a, I: Inputs>(
    alloc: Global,
    inputs: &mut I,
    path: &'a str,
    table: Crontab,
    jobs: Anacrontab,
    places: &[Place],
) -> Result<(Plan, Vec<u8>), Fault<'a>>
    ensures step { IsFresh (I.whole inputs.old) (I.left inputs.old)
        → CameTo (ReadsFitting (I.whole inputs.old) places.now (table, jobs) path.now
        (I.failed inputs.old) (I.failed inputs.new)) (without_rest result) }
    ensures text { IsFresh (I.whole inputs.old) (I.left inputs.old)
        → IfOk result (λ found. FittingIn (I.whole inputs.old) path.now places.now (table, jobs)
        found.0 found.1.items) }
    ensures works { OnOk result (I.failed inputs.new ≡ I.failed inputs.old) }
    ensures whole { I.whole inputs.new ≡ I.whole inputs.old }
    ensures fresh { OnOk result (IsFresh (I.whole inputs.old) (I.left inputs.old)
        → IsFresh (I.whole inputs.new) (I.left inputs.new)) }
    ensures status { IfErr result (IsHonestOf (I.failed inputs.new) (I.reads inputs.new)) }
    ensures alone { IsReadAlone path.now (I.reads inputs.old) (I.reads inputs.new) }
{
    let bytes = all_bytes_at(alloc, inputs, path)?;
    let has_jobs = !jobs.lines().is_empty();
    let declarations = match read_declarations(alloc, bytes.as_slice()) {
        Ok(declarations) => declarations,
        Err(error) => {
            return Err(declared_fault(alloc, path, bytes.as_slice(), has_jobs, error));
        }
    };
    match join_placed(alloc, table, jobs, places, declarations) {
        Ok(plan) => Ok((plan, bytes)),
        Err(error) => Err(declared_fault(alloc, path, bytes.as_slice(), has_jobs, error)),
    }
}

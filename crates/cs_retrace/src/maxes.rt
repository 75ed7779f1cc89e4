//! The longest times of jobs, as `learn` prints them and `draft` reads them: `line 3 25` gives 25
//! minutes to the job on line 3 of the crontab, `job cron.daily 25` to that job of the anacrontab.
ghost use Rattle.std.specs.Prelude.{◌≡◌, ◌==◌, Err, IfErr, IfOk, None, Some, bytes_eq, option_map};
ghost use Rattle.std.specs.List.{list_any};
ghost use Rattle.cs_retrace.specs.Maxes.{given_in, has_job, is_given, is_quiet, is_same, max_in, max_of, name_in};
ghost use Rattle.cs_retrace.specs.Maxes.{one_of, read_in, words_in};
ghost use Rattle.cs_retrace.specs.declared.maxes.JobName.TheVariants.{Identifier, Line as OfLine};

use crate::words::{is_word, number, split};
use cs_anacrontab::Job;
use cs_civil::Bytes;
use cs_crontab::Line;
use cs_table::text::first_line;
use std::alloc::{AllocError, Global};

/// The longest max of a declaration, in minutes.
pub const LONGEST_MAX: u64 = 4_320;

/// Which job a longest time is of.
#[derive(Drop)]
pub enum JobName {
    /// The one on this line of the crontab.
    Line(u64),
    /// The one of this identifier in the anacrontab.
    Identifier(Bytes),
}

impl JobName {
    /// Whether it is the job on this line of the crontab.
    pub fn is_line(&self, number: u64) -> bool
        ensures { result ≡ is_same self.now (OfLine number) }
    {
        match self {
            JobName::Line(own) => *own == number,
            JobName::Identifier(_) => false,
        }
    }

    /// Whether it is the job of this identifier.
    pub fn is_identifier(&self, identifier: &[u8]) -> bool
        ensures { result ≡ is_same self.now (Identifier identifier.now) }
    {
        match self {
            JobName::Line(_) => false,
            JobName::Identifier(own) => own.as_slice() == identifier,
        }
    }

    fn is_same(&self, other: &JobName) -> bool
        ensures { result ≡ is_same self.now other.now }
    {
        match other {
            JobName::Line(number) => self.is_line(*number),
            JobName::Identifier(identifier) => self.is_identifier(identifier.as_slice()),
        }
    }

    /// Returns `line 3` or `job cron.daily`.
    pub fn text(&self, alloc: Global) -> Result<Vec<u8>, AllocError> {
        match self {
            JobName::Line(number) => Ok(format!(in alloc; "line {number}")?.into_bytes()),
            JobName::Identifier(identifier) => {
                let mut text = Vec::from_slice(alloc, b"job ".as_slice())?;
                text.extend_from_slice(identifier.as_slice())?;
                Ok(text)
            }
        }
    }
}

fn has_line(lines: &[Line], number: u64) -> bool
    ensures { result ≡ list_any (λ line. line.number == number) lines.now }
{
    lines.iter().any(|line| u64::from(line.number()) == number)
}

fn has_identifier(jobs: &[Job], identifier: &[u8]) -> bool
    ensures { result ≡ list_any (λ job. bytes_eq job.identifier identifier.now) jobs.now }
{
    jobs.iter().any(|job| job.identifier() == identifier)
}

/// Checks whether the tables have the job.
pub fn has_job(lines: &[Line], jobs: &[Job], name: &JobName) -> bool
    ensures { result ≡ has_job lines.now jobs.now name.now }
{
    match name {
        JobName::Line(number) => has_line(lines, *number),
        JobName::Identifier(identifier) => has_identifier(jobs, identifier.as_slice()),
    }
}

/// The longest time that a line of such a text gives a job.
#[derive(Drop)]
pub struct Given {
    /// The line of the text, counted from 1.
    pub place: u64,
    /// The job.
    pub name: JobName,
    /// The longest time, in minutes.
    pub max: u64,
}

/// What is wrong with a line of such a text.
#[derive(Drop)]
pub enum MaxFault {
    /// It isn't of the form.
    Shape,
    /// The longest time of this job isn't from 1 to [`LONGEST_MAX`].
    Range(JobName),
    /// An earlier line gives one to this job.
    Twice(JobName),
}

#[tactic(auto, unfolding(crate::specs::Maxes::words_in))]
fn words_in(text: &[u8]) -> Option<(&[u8], &[u8], u64)>
    ensures { option_map (λ p. (p.0.now, p.1.now, p.2)) result ≡ words_in text.now }
{
    let (kind, rest) = split(b' ', text)?;
    let (name, max) = split(b' ', rest)?;
    Some((kind, name, number(max)?))
}

fn name_in(alloc: Global, kind: &[u8], name: &[u8]) -> Result<Option<JobName>, AllocError>
    ensures { IfOk result (λ found. found ≡ name_in kind.now name.now) }
{
    if is_word(kind, b"job") {
        return Ok(Some(JobName::Identifier(Bytes::from_slice(alloc, name)?)));
    }
    if !is_word(kind, b"line") {
        return Ok(None);
    }
    match number(name) {
        Some(number) => Ok(Some(JobName::Line(number))),
        None => Ok(None),
    }
}

#[tactic(auto, unfolding(crate::specs::Maxes::max_in))]
fn max_in(alloc: Global, text: &[u8]) -> Result<Option<(JobName, u64)>, AllocError>
    ensures { IfOk result (λ found. found ≡ max_in text.now) }
{
    let Some((kind, name, max)) = words_in(text) else {
        return Ok(None);
    };
    match name_in(alloc, kind, name)? {
        Some(name) => Ok(Some((name, max))),
        None => Ok(None),
    }
}

fn is_quiet(text: &[u8]) -> bool
    ensures { result ≡ is_quiet text.now }
{
    match text.first() {
        Some(byte) => *byte == b'#',
        None => true,
    }
}

fn is_given(given: &[Given], name: &JobName) -> bool
    ensures { result ≡ is_given given.now name.now }
{
    given.iter().any(|other| other.name.is_same(name))
}

/// The longest time that is given for a line of the crontab.
pub fn max_of(given: &[Given], number: u64) -> Option<u64>
    ensures { result ≡ max_of given.now (OfLine number) }
{
    match given.iter().find(|other| other.name.is_line(number)) {
        Some(found) => Some(found.max),
        None => None,
    }
}

/// The longest time that is given for a job of the anacrontab.
pub fn max_of_identifier(given: &[Given], identifier: &[u8]) -> Option<u64>
    ensures { result ≡ max_of given.now (Identifier identifier.now) }
{
    match given
        .iter()
        .find(|other| other.name.is_identifier(identifier))
    {
        Some(found) => Some(found.max),
        None => None,
    }
}

fn one_given(
    alloc: Global,
    place: u64,
    given: &[Given],
    text: &[u8],
) -> Result<Result<Given, MaxFault>, AllocError>
    ensures { IfOk result (λ one. one ≡ one_of place given.now (max_in text.now)) }
{
    let Some((name, max)) = max_in(alloc, text)? else {
        return Ok(Err(MaxFault::Shape));
    };
    if max < 1 || max > LONGEST_MAX {
        return Ok(Err(MaxFault::Range(name)));
    }
    if is_given(given, &name) {
        return Ok(Err(MaxFault::Twice(name)));
    }
    Ok(Ok(Given { place, name, max }))
}

/// Reads the longest times that a text gives, or finds its first line with a fault. Empty lines and
/// those that begin with `#` give none.
#[tactic(auto, unfolding(crate::specs::Maxes::given_by, crate::specs::Maxes::numbered, cs_table::specs::Text::lines_of))]
pub fn read_maxes(
    alloc: Global,
    text: &[u8],
) -> Result<Result<Vec<Given>, (u64, MaxFault)>, AllocError>
    ensures given { IfOk result
        (λ read. IfOk read (λ given. given_in text.now ≡ Some given.items)) }
    ensures fault { IfOk result (λ read. IfErr read (λ fault. read_in text.now ≡ Err fault)) }
{
    let mut given = Vec::new(alloc);
    let mut place = 1u64;
    let mut rest = text;
    while !rest.is_empty() {
        let (line, behind) = first_line(rest);
        if !is_quiet(line) {
            match one_given(alloc, place, given.as_slice(), line)? {
                Ok(one) => given.push(one)?,
                Err(fault) => return Ok(Err((place, fault))),
            }
        }
        place = place.saturating_add(1);
        rest = behind;
    }
    Ok(Ok(given))
}

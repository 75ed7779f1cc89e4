//! Keeping the files that a daemon has accepted, for a later one.
ghost use Rattle.std.specs.Prelude.{◌≡◌, IfOk, IsTrue};
ghost use Rattle.cs_anacrontab.specs.Faults.{IsAnacrontab};
ghost use Rattle.cs_serve.specs.Kept.{AreAccepted};

use crate::diary::Hand;
use crate::kept::are_files;
use crate::kept_text::{Texts, accepted_text};
use cs_anacrontab::{AnacronFault, Anacrontab, Job, read_anacrontab};
use cs_args::CheckWords;
use cs_claims::MAX_CERTIFICATE;
use cs_io::{Machine, ReadFault, read_up_to};
use cs_machine::ToldFile;
use cs_ruling::Order;
use cs_table::{MAX_TABLE, Setting};
use std::alloc::{AllocError, Global};
use std::io;
use std::io::Write;
use std::rt::{Clock, Files};
use std::sync::Wait;

/// The bytes of the files of `run`.
#[derive(Drop)]
struct ReadFiles {
    table: Vec<u8>,
    declarations: Vec<u8>,
    certificate: Vec<u8>,
    anacrontab: Option<Vec<u8>>,
}

/// In bytes: longer declarations aren't kept.
const MOST_DECLARATIONS: u32 = 33_554_432;

/// The bytes of a file, or more than `most` of them if it is longer.
fn bytes_at<R: Files + Input>(
    rt: &R,
    alloc: Global,
    path: &str,
    most: u32,
) -> Result<Vec<u8>, ReadFault> {
    read_up_to(alloc, &mut Machine::new(rt), path, most)
}

fn read_files<R: Files + Input>(
    rt: &R,
    alloc: Global,
    words: &CheckWords<'_>,
) -> Result<ReadFiles, ReadFault> {
    let table = bytes_at(rt, alloc, words.table, MAX_TABLE as u32)?;
    let declarations = bytes_at(rt, alloc, words.declarations, MOST_DECLARATIONS)?;
    let certificate = bytes_at(rt, alloc, words.certificate, MAX_CERTIFICATE as u32)?;
    let anacrontab = match words.anacrontab {
        Some(path) => Some(bytes_at(rt, alloc, path, MAX_TABLE as u32)?),
        None => None,
    };
    Ok(ReadFiles {
        table,
        declarations,
        certificate,
        anacrontab,
    })
}

fn is_same_job(one: &Job, other: &Job) -> bool
    ensures { IsTrue result → one.now ≡ other.now }
{
    one.number() == other.number()
        && one.period() == other.period()
        && one.delay() == other.delay()
        && one.identifier() == other.identifier()
        && one.command() == other.command()
}

fn are_same_jobs(one: &[Job], other: &[Job]) -> bool
    ensures { IsTrue result → one.now ≡ other.now }
{
    if one.len() != other.len() {
        return false;
    }
    for at in 0..one.len() {
        if !is_same_job(&one[at], &other[at]) {
            return false;
        }
    }
    true
}

fn is_same_setting(one: &Setting, other: &Setting) -> bool
    ensures { IsTrue result → one.now ≡ other.now }
{
    one.number() == other.number() && one.name() == other.name() && one.value() == other.value()
}

fn are_same_settings(one: &[Setting], other: &[Setting]) -> bool
    ensures { IsTrue result → one.now ≡ other.now }
{
    if one.len() != other.len() {
        return false;
    }
    for at in 0..one.len() {
        if !is_same_setting(&one[at], &other[at]) {
            return false;
        }
    }
    true
}

/// Whether a text is of this anacrontab.
fn is_of(alloc: Global, text: &[u8], table: &Anacrontab) -> Result<bool, AllocError>
    ensures { IfOk result (λ is. IsTrue is → IsAnacrontab text.now table.now) }
{
    match read_anacrontab(alloc, text) {
        Ok(read) => {
            if !are_same_jobs(read.lines(), table.lines()) {
                return Ok(false);
            }
            Ok(are_same_settings(read.settings(), table.settings()))
        }
        Err(AnacronFault::OutOfMemory) => Err(AllocError),
        Err(AnacronFault::At { .. }) => Ok(false),
    }
}

impl ReadFiles {
    fn texts(&self) -> Texts<'_> {
        let anacrontab = match &self.anacrontab {
            Some(text) => Some(text.as_slice()),
            None => None,
        };
        Texts {
            table: self.table.as_slice(),
            declarations: self.declarations.as_slice(),
            certificate: self.certificate.as_slice(),
            anacrontab,
        }
    }
}

/// Whether they are what was accepted for an order. Of an anacrontab no digest is known.
fn are_accepted(alloc: Global, order: &Order<'_>, texts: &Texts<'_>) -> Result<bool, AllocError>
    ensures { IfOk result (λ are. IsTrue are → AreAccepted order.now texts.now) }
{
    let digests = &order.digests;
    if !digests.are_of(texts.table, texts.declarations, texts.certificate) {
        return Ok(false);
    }
    match texts.anacrontab {
        Some(text) => is_of(alloc, text, order.checked.plan().anacrontab()),
        None => Ok(true),
    }
}

fn keep<R: Files + Input>(rt: &R, alloc: Global, order: &Order<'_>) -> io::Result<()> {
    let words = &order.words;
    if !are_files(rt, &words.check) {
        return Ok(());
    }
    let read = match read_files(rt, alloc, &words.check) {
        Ok(read) => read,
        Err(ReadFault::CannotRead(_)) => return Ok(()),
        Err(ReadFault::OutOfMemory) => return Err(io::Error::from(AllocError)),
    };
    let texts = read.texts();
    if !are_accepted(alloc, order, &texts)? {
        return Ok(());
    }
    let text = accepted_text(alloc, &texts)?;
    ToldFile::accepted(alloc, words.stamps)?.replace(rt, text.as_slice())
}

/// Keeps the files of an order, unless they have changed since they were accepted, or can't be read
/// again. A failure is noted.
pub(crate) fn keep_accepted<R: Files + Input + Clock + Wait, W: Write>(
    rt: &R,
    alloc: Global,
    order: &Order<'_>,
    hand: &mut Hand<'_, '_, R, W>,
) {
    let Err(error) = keep(rt, alloc, order) else {
        return;
    };
    if let Ok(line) = format!(in alloc; "can't keep the accepted files: {error}") {
        hand.note(line.as_bytes());
    }
}

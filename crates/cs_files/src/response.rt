ghost use Rattle.std.specs.Prelude.{◌≡◌, ◌++◌, [], IfOk, if◌then◌else◌};
ghost use Rattle.cs_args.specs.Version.{version_text};
ghost use Rattle.cs_files.specs.Response.{complaint, done, status_of};

use cs_args::version_text;
use cs_civil::Bytes;
use std::alloc::{AllocError, Global};
use std::marker::Model;

/// How a call of the program ends.
#[derive(Clone, Copy, PartialEq, Eq)]
pub enum Status {
    /// What is asked was done, or help was shown.
    Done,
    /// A plan is unsafe, or an event of a script, or a certificate, was refused.
    Refused,
    /// Whether a plan is safe is not known.
    Unknown,
    /// The words or a file hold a fault.
    BadInput,
    /// The words aren't a call.
    NoCall,
    /// Memory ran out.
    NoMemory,
    /// A file could not be read, or standard output not written.
    DeviceFailed,
}

impl Status {
    /// The number that the process ends with.
    pub fn code(self) -> u8
        ensures { result ≡ status_of self }
    {
        match self {
            Status::Done => 0,
            Status::Refused => 1,
            Status::Unknown => 2,
            Status::BadInput => 3,
            Status::NoCall => 4,
            Status::NoMemory => 5,
            Status::DeviceFailed => 6,
        }
    }
}

/// What a call of the program writes, and the status that it ends with.
#[derive(Drop)]
pub struct Response {
    ends: Status,
    shown: Bytes,
    told: Bytes,
}

impl Model for Response {
    ghost use Rattle.cs_files.specs.Response.{Ending, status_of};

    ghost Value = { Ending };

    ghost view = { λ r. record { status = status_of r.ends; out = r.shown; err = r.told } };
}

impl Response {
    /// The status.
    pub fn status(&self) -> Status
        ensures { status_of result ≡ self.now.status }
    {
        self.ends
    }

    /// What is written to standard output.
    pub fn out(&self) -> &[u8]
        ensures { result.now ≡ self.now.out }
    {
        self.shown.as_slice()
    }

    /// What is written to standard error.
    pub fn err(&self) -> &[u8]
        ensures { result.now ≡ self.now.err }
    {
        self.told.as_slice()
    }

    /// The call was done, with these warnings.
    pub fn done(text: Vec<u8>, warnings: Bytes) -> Response
        ensures { result ≡ done text.items warnings }
    {
        Response {
            ends: Status::Done,
            shown: Bytes::from_vec(text),
            told: warnings,
        }
    }

    /// The version is asked for.
    pub fn version(alloc: Global) -> Result<Response, AllocError>
        ensures { IfOk result (λ r. r ≡ done version_text []) }
    {
        let text = Vec::from_slice(alloc, version_text().as_bytes())?;
        Ok(Response::done(text, Bytes::new(alloc)))
    }

    /// The words aren't a call, for this reason.
    pub fn no_call(alloc: Global, text: Vec<u8>) -> Response
        ensures { result ≡ record { status = 4; out = []; err = text.items } }
    {
        Response {
            ends: Status::NoCall,
            shown: Bytes::new(alloc),
            told: Bytes::from_vec(text),
        }
    }

    /// A script was replayed: the text, whether an event was refused, and the warnings.
    pub fn replayed(text: Vec<u8>, refused: bool, warnings: Bytes) -> Response
        ensures { result
            ≡ record { status = if refused then 1 else 0; out = text.items; err = warnings } }
    {
        let ends = if refused {
            Status::Refused
        } else {
            Status::Done
        };
        Response {
            ends,
            shown: Bytes::from_vec(text),
            told: warnings,
        }
    }

    /// A certificate was refused: why, and the notes on the plan.
    pub fn refused(text: Vec<u8>, notes: Bytes) -> Response
        ensures { result ≡ record { status = 1; out = text.items; err = notes } }
    {
        Response {
            ends: Status::Refused,
            shown: Bytes::from_vec(text),
            told: notes,
        }
    }

    /// A plan was judged: the status, the answer, and the notes on the plan.
    pub fn told(status: Status, text: Vec<u8>, notes: Bytes) -> Response
        ensures { result ≡ record { status = status_of status; out = text.items; err = notes } }
    {
        Response {
            ends: status,
            shown: Bytes::from_vec(text),
            told: notes,
        }
    }

    /// A fault ended the call with this status, after these warnings.
    pub fn fault(
        alloc: Global,
        status: Status,
        warnings: &[u8],
        fault: &[u8],
    ) -> Result<Response, AllocError>
        ensures { IfOk result (λ r. r ≡ record
            { status = status_of status; out = []; err = warnings.now ++ complaint fault.now }) }
    {
        Ok(Response {
            ends: status,
            shown: Bytes::new(alloc),
            told: complaint_behind(alloc, warnings, fault)?,
        })
    }
}

#[tactic(auto, unfolding(crate::specs::Response::complaint))]
fn complaint_behind(alloc: Global, warnings: &[u8], fault: &[u8]) -> Result<Bytes, AllocError>
    ensures { IfOk result (λ text. text ≡ warnings.now ++ complaint fault.now) }
{
    let mut text = Vec::from_slice(alloc, warnings)?;
    text.extend_from_slice(b"cronsafe: ")?;
    text.extend_from_slice(fault)?;
    text.extend_from_slice(b"\n")?;
    Ok(Bytes::from_vec(text))
}

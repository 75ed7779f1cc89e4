ghost use Rattle.std.specs.Prelude.{◌≡◌, ◌++◌, [], IfOk};
ghost use Rattle.cs_files.specs.Response.{complaint};

use crate::check::Digests;
use cs_args::{ReloadWords, RunWords, StatusWords, StopWords};
use cs_check::Checked;
use cs_civil::{Bytes, Sequence};
use cs_files::{Response, Status};
use cs_owner::Owner;
use std::alloc::{AllocError, Global};

/// What a call comes to.
#[derive(Drop)]
pub enum Answer<'a> {
    /// It ends with this.
    Ends(Response),
    /// These tables are to be run.
    Runs(Order<'a>),
    /// A daemon is to be stopped.
    Stops(StopWords<'a>),
    /// A daemon is to read its files again.
    Reloads(ReloadWords<'a>),
    /// It ends as `make` does, or a daemon is to go on with the certificate.
    Applies {
        /// The path at which the certificate is put.
        certificate: &'a str,
        /// The path of the daemon's folder of stamps.
        stamps: &'a str,
        /// The answer to `make --compact`.
        made: Response,
    },
    /// The state of a daemon is to be shown.
    Tells(StatusWords<'a>),
}

/// What is to be run, and how.
#[derive(Drop)]
pub struct Order<'a> {
    /// The plan, with the certificate that the checker has accepted.
    pub checked: Checked,
    /// The owners of the commands of the crontab, in their order; none unless it was gathered.
    pub owners: Sequence<Owner>,
    /// The notes on the plan, still to be written.
    pub warnings: Bytes,
    /// The text of the declarations.
    pub declarations: Bytes,
    /// What `run` is asked.
    pub words: RunWords<'a>,
    /// The SHA-256 of the files, as they were read.
    pub digests: Digests,
}

impl Order<'_> {
    /// Returns the answer where what is at this path can't be used, such as the folder of the
    /// stamps; `why` stands before the path.
    pub fn without(&self, alloc: Global, why: &str, path: &str) -> Result<Response, AllocError>
        ensures { IfOk result (λ r. r ≡ record {
          status = 6;
          out = [];
          err = self.now.warnings ++ complaint (why.now ++ path.now);
        }) }
    {
        let mut fault = Vec::from_slice(alloc, why.as_bytes())?;
        fault.extend_from_slice(path.as_bytes())?;
        Response::fault(
            alloc,
            Status::DeviceFailed,
            self.warnings.as_slice(),
            fault.as_slice(),
        )
    }
}

//! Having a daemon go on with edited files.
ghost use Rattle.std.specs.Prelude.{◌≡◌, IfOk};
ghost use Rattle.cs_files.specs.Response.{status_of};
ghost use Rattle.cs_files.specs.Ending.{sink};
ghost use Rattle.cs_ask.specs.Applying.{Applies, IsUnwritten, faulty};

use crate::reloading::reload;
use cs_args::ReloadWords;
use cs_files::{Response, Status, finish, run_out};
use cs_io::Output;
use cs_machine::put_file;
use std::alloc::{AllocError, Global};
use std::fs::File;
use std::rt::{Clock, Files};
use std::sync::Wait;

fn faulty(alloc: Global, why: &str, path: &str) -> Result<Response, AllocError>
    ensures { IfOk result (λ r. r ≡ faulty why.now path.now) }
{
    let mut fault = Vec::from_slice(alloc, why.as_bytes())?;
    fault.extend_from_slice(path.as_bytes())?;
    Response::fault(
        alloc,
        Status::DeviceFailed,
        b"".as_slice(),
        fault.as_slice(),
    )
}

fn refuse_unwritten<O: Output, E: Output>(
    alloc: Global,
    path: &str,
    out: &mut O,
    err: &mut E,
) -> Status
    ensures { IsUnwritten path.now
        (sink (O.contents out.old) (O.failed out.old))
        (sink (O.contents out.new) (O.failed out.new))
        (sink (E.contents err.old) (E.failed err.old))
        (sink (E.contents err.new) (E.failed err.new))
        (status_of result) }
{
    match faulty(alloc, "can't write ", path) {
        Ok(response) => finish(&response, out, err),
        Err(AllocError) => run_out(err),
    }
}

/// Ends a call as `make` does, unless that is with status 0. Then what it prints, a certificate, is
/// put in place of the one at a path, and the daemon of a folder of stamps is asked to reload. The
/// status is that of `reload` then, or 6 if the certificate can't be written.
pub fn apply<R: Files<File = File> + Clock + Wait, O: Output, E: Output>(
    rt: &R,
    alloc: Global,
    certificate: &str,
    stamps: &str,
    made: &Response,
    out: &mut O,
    err: &mut E,
) -> Status
    ensures { Applies certificate.now stamps.now made.now
        (sink (O.contents out.old) (O.failed out.old))
        (sink (O.contents out.new) (O.failed out.new))
        (sink (E.contents err.old) (E.failed err.old))
        (sink (E.contents err.new) (E.failed err.new))
        (status_of result) }
{
    if made.status() != Status::Done {
        return finish(made, out, err);
    }
    // `-` is standard input
    if certificate == "-" || put_file(rt, alloc, certificate, made.out()).is_err() {
        return refuse_unwritten(alloc, certificate, out, err);
    }
    let asked = ReloadWords {
        stamps,
        drain: false,
    };
    reload(rt, alloc, asked, out, err)
}

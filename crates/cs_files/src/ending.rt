//! How a call ends.
ghost use Rattle.std.specs.Prelude.{◌≡◌, codes};
ghost use Rattle.cs_files.specs.Response.{status_of};
ghost use Rattle.cs_files.specs.Ending.{Ends, Tries, sink};

use crate::response::{Response, Status};
use cs_io::{CannotWrite, Output};

/// Writes a text to standard error. What it does not take is lost.
pub fn tell<E: Output>(err: &mut E, text: &[u8])
    ensures { Tries text.now (sink (E.contents err.old) (E.failed err.old))
        (sink (E.contents err.new) (E.failed err.new)) }
{
    match err.print(text) {
        Ok(()) => {}
        Err(CannotWrite) => {}
    }
}

/// Writes an answer, to standard error first, and returns its status: that of a failed device if
/// standard output doesn't take its text. What standard error doesn't take is lost.
pub fn finish<O: Output, E: Output>(response: &Response, out: &mut O, err: &mut E) -> Status
    ensures { Ends response.now
        (sink (O.contents out.old) (O.failed out.old))
        (sink (O.contents out.new) (O.failed out.new))
        (sink (E.contents err.old) (E.failed err.old))
        (sink (E.contents err.new) (E.failed err.new))
        (status_of result) }
{
    tell(err, response.err());
    if out.print(response.out()).is_err() {
        return Status::DeviceFailed;
    }
    response.status()
}

/// Reports that memory ran out, and returns the status of that.
pub fn run_out<E: Output>(err: &mut E) -> Status
    ensures told { Tries (codes "cronsafe: out of memory\n")
        (sink (E.contents err.old) (E.failed err.old))
        (sink (E.contents err.new) (E.failed err.new)) }
    ensures status { status_of result ≡ 5 }
{
    tell(err, b"cronsafe: out of memory\n".as_slice());
    Status::NoMemory
}

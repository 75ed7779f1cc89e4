ghost use Rattle.std.specs.Prelude.{IfOk};
ghost use Rattle.cs_findings.specs.Format.{IsShownAs};

use crate::finding::{Finding, TableStatus};
use crate::github::github;
use crate::json::json;
use crate::sarif::sarif;
use cs_args::Format;
use cs_civil::Bytes;
use cs_files::Response;
use std::alloc::{AllocError, Global};

/// The findings in a form for programs, one for one and in the same order, and in JSON also how the
/// tables end the call; nothing for `Text`. The only error is out of memory.
pub fn written<'a>(
    alloc: Global,
    format: Format,
    findings: &'a [Finding<'a>],
    tables: &'a [TableStatus<'a>],
) -> Result<Vec<u8>, AllocError> {
    match format {
        Format::Text => Ok(Vec::new(alloc)),
        Format::Json => json(alloc, findings, tables),
        Format::Sarif => sarif(alloc, findings),
        Format::Github => github(alloc, findings),
    }
}

/// The answer in a format: another text on standard output, unless it is `Text`. The only error is
/// out of memory.
pub fn in_format(
    alloc: Global,
    plain: Response,
    format: Format,
    out: Vec<u8>,
) -> Result<Response, AllocError>
    ensures { IfOk result (IsShownAs format plain) }
{
    match format {
        Format::Text => Ok(plain),
        Format::Json | Format::Sarif | Format::Github => {
            let notes = Bytes::from_slice(alloc, plain.err())?;
            Ok(Response::told(plain.status(), out, notes))
        }
    }
}

//! The subcommand `explain`.
ghost use Rattle.std.specs.Prelude.{IfOk};
ghost use Rattle.cs_explain.specs.Answer.{IsExplained};

use crate::guess::nearest;
use crate::kind::KINDS;
use crate::texts::{explain as explanation, names};
use cs_civil::Bytes;
use cs_files::Response;
use std::alloc::{AllocError, Global};

/// The message where nothing has the name, with the nearest name, if any is near.
pub fn no_such_name(
    alloc: Global,
    name: &str,
    nearest: Option<&str>,
) -> Result<Vec<u8>, AllocError> {
    let (hint, near, end) = match nearest {
        Some(near) => ("did you mean ", near, "?"),
        None => ("'cronsafe explain' lists all names", "", ""),
    };
    let name = if name.is_empty() { "''" } else { name };
    let text = format!(in alloc; "cronsafe: unknown name {name}: {hint}{near}{end}\n")?;
    Ok(text.into_bytes())
}

/// Answers `explain [NAME]`. The only error is out of memory.
pub fn answer_explain(alloc: Global, name: Option<&str>) -> Result<Response, AllocError>
    ensures { IfOk result IsExplained }
{
    let Some(name) = name else {
        return Ok(Response::done(names(alloc)?.into_bytes(), Bytes::new(alloc)));
    };
    match explanation(alloc, name)? {
        Some(text) => Ok(Response::done(text.into_bytes(), Bytes::new(alloc))),
        None => {
            let near = nearest(alloc, name, &KINDS)?;
            Ok(Response::no_call(alloc, no_such_name(alloc, name, near)?))
        }
    }
}

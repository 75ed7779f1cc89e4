use crate::ending::{run_out, tell};
use crate::response::Status;
use cs_io::Output;
use std::alloc::{AllocError, Global};
use std::rt::Env;
use std::{env, io};

fn without_words<E: Output>(error: &io::Error, err: &mut E) -> Status {
    if error.kind() == io::ErrorKind::OutOfMemory {
        return run_out(err);
    }
    tell(
        err,
        b"cronsafe: the words of the call are no UTF-8 text\n".as_slice(),
    );
    Status::NoCall
}

/// Puts the name of the command in place of the name of the program's file.
fn named(alloc: Global, mut words: Vec<String>) -> Result<Vec<String>, AllocError> {
    if let Some(first) = words.first_mut() {
        *first = String::from_str(alloc, "cronsafe")?;
    }
    Ok(words)
}

/// Returns the words of the call, of which the first is `cronsafe`, whatever the program's file is
/// called. If memory runs out, or a word isn't UTF-8, writes that to standard error, and returns
/// the status.
pub fn words_of<R: Env + AllocGlobal, E: Output>(
    rt: &R,
    err: &mut E,
) -> Result<Vec<String>, Status> {
    let given = match env::args(rt) {
        Ok(given) => given,
        Err(error) => return Err(without_words(&error, err)),
    };
    let Ok(words) = given.collect::<Vec<String>>(rt.alloc()) else {
        return Err(run_out(err));
    };
    match named(rt.alloc(), words) {
        Ok(words) => Ok(words),
        Err(_) => Err(run_out(err)),
    }
}

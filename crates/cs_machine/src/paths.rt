ghost use Rattle.std.specs.Prelude.{◌≡◌, IsErr, IfOk, string_bytes};
ghost use Rattle.std.specs.List.{list_any};
ghost use Rattle.std.specs.Str.{IsUtf8};
ghost use Rattle.cs_machine.specs.Files.{IsFileName, file_of, is_kept_out, new_file_of};

use std::alloc::{AllocError, Global};
use std::io::ErrorKind;
use std::{io, str};

fn has_kept_out(bytes: &[u8]) -> bool
    ensures { result ≡ list_any is_kept_out bytes.now }
{
    bytes
        .iter()
        .any(|byte| *byte == b'/' || *byte == b' ' || *byte == b'\t')
}

/// An error exactly if it isn't UTF-8, has a blank, or can't be a file's name.
pub(crate) fn file_name(name: &[u8]) -> io::Result<&str>
    ensures text { IfOk result (λ text. (text.now ≡ name.now) × IsFileName name.now) }
    ensures refused { IsErr result → ¬ (IsUtf8 name.now × IsFileName name.now) }
{
    match str::from_utf8(name) {
        Ok(text) if !matches!(text, "" | "." | "..") && !has_kept_out(name) => Ok(text),
        _ => Err(io::Error::from(ErrorKind::InvalidInput)),
    }
}

pub(crate) fn path_in(alloc: Global, folder: &str, name: &str) -> Result<String, AllocError>
    ensures { IfOk result (λ path. string_bytes path ≡ file_of folder.now name.now) }
{
    let mut path = String::from_str(alloc, folder)?;
    path.push_str("/")?;
    path.push_str(name)?;
    Ok(path)
}

/// The blank in its name sets it apart from every identifier's.
pub(crate) fn new_path_in(alloc: Global, folder: &str, name: &str) -> Result<String, AllocError>
    ensures { IfOk result (λ path. string_bytes path ≡ new_file_of folder.now name.now) }
{
    let mut path = path_in(alloc, folder, name)?;
    path.push_str(" new")?;
    Ok(path)
}

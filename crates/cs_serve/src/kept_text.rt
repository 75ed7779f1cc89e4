//! The text that holds the files that a daemon accepted last.
ghost use Rattle.std.specs.Prelude.{◌≡◌, ◌++◌, IfOk, IfSome, OnOk, option_copied};
ghost use Rattle.cs_serve.specs.Kept.{accepted_text, bytes_of, length_line, lengths_of};

use cs_civil::push_number;
use cs_table::text::first_line;
use std::alloc::{AllocError, Global};
use std::str;

/// The bytes of the files of `run`.
#[derive(Clone, Copy)]
pub(crate) struct Texts<'a> {
    pub(crate) table: &'a [u8],
    pub(crate) declarations: &'a [u8],
    pub(crate) certificate: &'a [u8],
    pub(crate) anacrontab: Option<&'a [u8]>,
}

const FIRST: &[u8] = b"cronsafe accepted 1\n";

fn push_length(alloc: Global, text: &mut Vec<u8>, file: Option<&[u8]>) -> Result<(), AllocError>
    ensures { OnOk result
        (text.new.items ≡ text.old.items ++ length_line (option_copied file.entry)) }
{
    match file {
        Some(bytes) => push_number(alloc, text, bytes.len() as u128)?,
        None => text.extend_from_slice(b"-")?,
    }
    text.extend_from_slice(b"\n")
}

fn push_lengths(alloc: Global, text: &mut Vec<u8>, files: &Texts<'_>) -> Result<(), AllocError>
    ensures { OnOk result (text.new.items ≡ text.old.items ++ lengths_of files.now) }
{
    push_length(alloc, text, Some(files.table))?;
    push_length(alloc, text, Some(files.declarations))?;
    push_length(alloc, text, Some(files.certificate))?;
    push_length(alloc, text, files.anacrontab)
}

fn push_bytes(text: &mut Vec<u8>, files: &Texts<'_>) -> Result<(), AllocError>
    ensures { OnOk result (text.new.items ≡ text.old.items ++ bytes_of files.now) }
{
    text.extend_from_slice(files.table)?;
    text.extend_from_slice(files.declarations)?;
    text.extend_from_slice(files.certificate)?;
    text.extend_from_slice(files.anacrontab.unwrap_or(b"".as_slice()))
}

pub(crate) fn accepted_text(alloc: Global, files: &Texts<'_>) -> Result<Vec<u8>, AllocError>
    ensures { IfOk result (λ text. text.items ≡ accepted_text files.now) }
{
    let mut text = Vec::from_slice(alloc, FIRST)?;
    push_lengths(alloc, &mut text, files)?;
    push_bytes(&mut text, files)?;
    Ok(text)
}

/// The length on the first line, none for `-`, and what follows that line.
fn length_at(text: &[u8]) -> Option<(Option<usize>, &[u8])> {
    if text.is_empty() {
        return None;
    }
    let (line, behind) = first_line(text);
    if line == b"-".as_slice() {
        return Some((None, behind));
    }
    let digits = str::from_utf8(line).ok()?;
    let length = digits.parse::<usize>().ok()?;
    Some((Some(length), behind))
}

fn parts_of(text: &[u8]) -> Option<Texts<'_>> {
    let rest = text.strip_prefix(FIRST)?;
    let (table, rest) = length_at(rest)?;
    let (declarations, rest) = length_at(rest)?;
    let (certificate, rest) = length_at(rest)?;
    let (anacrontab, rest) = length_at(rest)?;
    let (table, rest) = rest.split_at_checked(table?)?;
    let (declarations, rest) = rest.split_at_checked(declarations?)?;
    let (certificate, rest) = rest.split_at_checked(certificate?)?;
    Some(Texts {
        table,
        declarations,
        certificate,
        anacrontab: if anacrontab.is_some() {
            Some(rest)
        } else {
            None
        },
    })
}

/// The files that a text holds. None if it isn't written as [`accepted_text`] writes it, or if
/// memory runs out.
pub(crate) fn files_in(alloc: Global, text: &[u8]) -> Option<Texts<'_>>
    ensures { IfSome result (λ files. text.now ≡ accepted_text files) }
{
    let files = parts_of(text)?;
    let written = accepted_text(alloc, &files).ok()?;
    if written.as_slice() == text {
        Some(files)
    } else {
        None
    }
}

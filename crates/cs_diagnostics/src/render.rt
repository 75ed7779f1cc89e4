//! The text of findings: the place and the words, the line, and a mark under the place.
ghost use Rattle.std.specs.Prelude.{◌≡◌, ◌++◌, ℕ, IfOk, List, OnOk};
ghost use Rattle.cs_diagnostics.specs.Printed.{HasWords, ShowsEach, printed_oddities};

use crate::findings::{Done, Finding, Findings, MAX_TOLD, Note};
use crate::names::push_clean;
use crate::span::Span;
use crate::told::Shown;
use cs_civil::Bytes;
use std::alloc::{AllocError, Global};

/// The most bytes of a line that are shown before a place.
const IN_FRONT: usize = 100;

/// The most bytes of a line that are shown.
const SHOWN: usize = 160;

/// A file that is checked.
#[derive(Clone, Copy)]
pub struct File<'a> {
    /// Its path; `-` is standard input.
    pub path: &'a str,
    /// Its content.
    pub bytes: &'a [u8],
}

/// The part of a line that is shown, by the file's offsets of the line and of the place.
fn shown(bytes: &[u8], start: usize, place: usize) -> Span {
    let mut from = start;
    if place.saturating_sub(start) > IN_FRONT {
        from = place.saturating_sub(IN_FRONT);
        let letters = Span::of(from, 4).bytes(bytes);
        let first = letters.iter().position(|byte| !goes_on(*byte));
        from = from.saturating_add(first.unwrap_or(0));
    }
    let text = Span::of(from, SHOWN).bytes(bytes);
    let end = text.iter().position(|byte| *byte == b'\n');
    Span::of(from, end.unwrap_or(text.len()))
}

fn goes_on(byte: u8) -> bool {
    0x80 <= byte && byte < 0xc0
}

/// Adds a tab or the mark for each letter of the text above.
fn add_below(text: &mut Vec<u8>, letters: &[u8], mark: u8) -> Done {
    for byte in letters.iter().filter(|byte| !goes_on(**byte)) {
        let is_tab = mark == b' ' && *byte == b'\t';
        text.push(if is_tab { b'\t' } else { mark })?;
    }
    Ok(())
}

/// The line of a finding, or a part of it around the place, and a mark under the place.
fn marked(alloc: Global, bytes: &[u8], finding: &Finding) -> Result<Vec<u8>, AllocError> {
    let place = finding.place.behind(finding.start);
    let from = place.from.min(bytes.len());
    let piece = shown(bytes, finding.start, from);
    let is_cut = finding.start < piece.from;
    let goes_further = !matches!(bytes.get(piece.to), None | Some(b'\n'));
    let (cut, below_cut) = if is_cut { ("...", "   ") } else { ("", "") };
    let front = Span::between(piece.from, from.min(piece.to));
    let behind = Span::between(from.saturating_add(1), place.to.min(piece.to));
    let mut text = Vec::from_slice(alloc, cut.as_bytes())?;
    push_clean(&mut text, piece.bytes(bytes), b'\t')?;
    text.extend_from_slice(if goes_further { "...\n" } else { "\n" }.as_bytes())?;
    text.extend_from_slice(below_cut.as_bytes())?;
    add_below(&mut text, front.bytes(bytes), b' ')?;
    text.push(b'^')?;
    add_below(&mut text, behind.bytes(bytes), b'~')?;
    text.push(b'\n')?;
    Ok(text)
}

fn add_note(text: &mut Vec<u8>, notes: &[Note], line: u64) -> Done {
    for note in notes {
        if note.line == line {
            text.extend_from_slice(b"  ")?;
            text.extend_from_slice(note.text.as_slice())?;
            return text.extend_from_slice(b"\n");
        }
    }
    Ok(())
}

/// The text of a finding in a file of that name; `what` is `fault` or `odd`.
fn block_of(
    alloc: Global,
    file: (&str, &[u8]),
    notes: &[Note],
    what: &str,
    finding: &Finding,
) -> Result<Vec<u8>, AllocError>
    ensures { IfOk result (λ block. HasWords finding.now block.items) }
{
    let (name, bytes) = file;
    let (line, column) = (finding.line, finding.place.from as u128 + 1);
    let mut below = marked(alloc, bytes, finding)?;
    add_note(&mut below, notes, finding.about)?;
    let mut block = format!(in alloc; "{name}:{line}:{column}: {what}: ")?.into_bytes();
    block.extend_from_slice(finding.words.as_bytes())?;
    block.push(b'\n')?;
    block.extend_from_slice(below.as_slice())?;
    Ok(block)
}

fn add_findings(
    alloc: Global,
    text: &mut Vec<u8>,
    file: (&str, &[u8]),
    notes: &[Note],
    what: &str,
    findings: &[Finding],
) -> Done
    ensures { OnOk result ((shown : List ℕ) × ShowsEach findings.now shown
        × (text.new.items ≡ text.old.items ++ shown)) }
{
    for finding in findings {
        let block = block_of(alloc, file, notes, what, finding)?;
        text.extend_from_slice(block.as_slice())?;
    }
    Ok(())
}

impl Findings {
    /// Adds the findings of a file: faults, then oddities, each by place.
    ///
    /// Each begins with a line `FILE:LINE:COLUMN: fault: WORDS` or `FILE:LINE:COLUMN: odd: WORDS`;
    /// lines and columns count from 1, columns in bytes. Then comes the line of the place, with `?`
    /// for a control byte other than a tab, and under the place `^` and a `~` for each further
    /// letter. Of a line of more than 160 bytes a part around the place is shown, with `...` for
    /// the rest. The note of the line that the finding is about follows after two blanks. After
    /// [`MAX_TOLD`](crate::MAX_TOLD) findings `FILE: and N more` ends the text. The only error is
    /// out of memory.
    pub fn tell(&self, file: &File<'_>, notes: &[Note], text: &mut Vec<u8>) -> Done
        ensures { OnOk result ((faults oddities last : List ℕ)
            × ShowsEach self.now.faults.items faults
            × ShowsEach (printed_oddities self.now) oddities
            × (text.new.items ≡ ((text.old.items ++ faults) ++ oddities) ++ last)) }
    {
        let (alloc, faults) = (self.alloc, self.faults.as_slice());
        let name = if file.path == "-" {
            "standard input"
        } else {
            file.path
        };
        let named = (name, file.bytes);
        add_findings(alloc, text, named, notes, "fault", faults)?;
        add_findings(alloc, text, named, notes, "odd", self.printed_oddities())?;
        let more = self.more;
        let last = if more > 0 {
            format!(in alloc; "{name}: and {more} more\n")?
        } else {
            String::new(alloc)
        };
        text.extend_from_slice(last.as_bytes())
    }

    /// The oddities that are printed: not those after [`MAX_TOLD`](crate::MAX_TOLD) findings.
    pub(crate) fn printed_oddities(&self) -> &[Finding]
        ensures { result.now ≡ printed_oddities self.now }
    {
        let left = MAX_TOLD
            .saturating_sub(self.faults.len())
            .min(self.oddities.len());
        &self.oddities[..left]
    }

    /// What [`tell`](Findings::tell) adds, after a newline and without the last one; and the same
    /// findings for programs.
    pub(crate) fn shown(&self, file: &File<'_>, notes: &[Note]) -> Result<Shown, AllocError> {
        let mut lines = Vec::from_slice(self.alloc, b"\n".as_slice())?;
        self.tell(file, notes, &mut lines)?;
        let _newline = lines.pop();
        let mut told = Vec::new(self.alloc);
        self.push_told(file.bytes, &mut told)?;
        Shown::new(self.alloc, file.path, Bytes::from_vec(lines), told)
    }
}

//! The text of an answer, as lines or as Markdown.
use crate::side::Side;
use cs_civil::push_number;
use cs_place::push_shown;
use std::alloc::{AllocError, Global};

/// A part of the answer.
#[derive(Drop)]
pub(crate) struct Page {
    pub(crate) alloc: Global,
    pub(crate) text: Vec<u8>,
    pub(crate) markdown: bool,
}

/// One more backtick than stand in a row in the text.
fn fence_for(alloc: Global, text: &[u8]) -> Result<Vec<u8>, AllocError> {
    let mut fence = Vec::from_slice(alloc, b"`".as_slice())?;
    let mut run = 0usize;
    for byte in text {
        run = if *byte == b'`' {
            run.saturating_add(1)
        } else {
            0
        };
        if fence.len() <= run {
            fence.push(b'`')?;
        }
    }
    Ok(fence)
}

impl Page {
    pub(crate) fn new(alloc: Global, markdown: bool) -> Page {
        Page {
            alloc,
            text: Vec::new(alloc),
            markdown,
        }
    }

    pub(crate) fn begin(&mut self) -> Result<(), AllocError> {
        if self.markdown {
            return self.text.extend_from_slice(b"- ");
        }
        Ok(())
    }

    pub(crate) fn end(&mut self) -> Result<(), AllocError> {
        self.text.extend_from_slice(b"\n")
    }

    pub(crate) fn words(&mut self, words: &str) -> Result<(), AllocError> {
        self.text.extend_from_slice(words.as_bytes())
    }

    pub(crate) fn number(&mut self, number: u64) -> Result<(), AllocError> {
        push_number(self.alloc, &mut self.text, u128::from(number))
    }

    /// Adds bytes of a table, in Markdown as code.
    pub(crate) fn code(&mut self, bytes: &[u8]) -> Result<(), AllocError> {
        if !self.markdown {
            return push_shown(&mut self.text, bytes);
        }
        let fence = fence_for(self.alloc, bytes)?;
        let pad = if fence.len() == 1 { "" } else { " " };
        self.text.extend_from_slice(fence.as_slice())?;
        self.words(pad)?;
        push_shown(&mut self.text, bytes)?;
        self.words(pad)?;
        self.text.extend_from_slice(fence.as_slice())
    }

    /// Adds the name of a job, with its line if it isn't the only job of that name.
    pub(crate) fn job(&mut self, side: Side<'_>, job: u16) -> Result<(), AllocError> {
        self.code(side.name(job))?;
        match side.line(job) {
            Some(line) if !side.is_lone(job) => {
                self.words(" (line ")?;
                self.number(u64::from(line.number()))?;
                self.words(")")
            }
            _ => Ok(()),
        }
    }
}

ghost use Rattle.std.specs.Prelude.{◌≡◌, ℕ, List, Option, None, Bool, true, false, OnErr, OnOk};
ghost use Rattle.std.specs.Io.KnownBytes.{Appends};

use std::io;
use std::io::Write;

/// The output did not take all of a text.
#[derive(Clone, Copy, PartialEq, Eq)]
pub struct CannotWrite;

/// Standard output or standard error: texts are written one after the other.
pub trait Output {
    /// The bytes written, if known.
    ghost contents: { Self → Option (List ℕ) } = { λ _. None };

    /// Whether a write has failed.
    ghost failed: { Self → Bool };

    /// Writes all of a text.
    fn print(&mut self, text: &[u8]) -> Result<(), CannotWrite>
        ensures works { OnOk result (Appends (contents self.old) (contents self.new) text.now) }
        ensures stays { OnOk result (failed self.new ≡ failed self.old) }
        ensures fails { OnErr result (failed self.new ≡ true) };
}

/// A writer as an output of the program.
#[derive(Drop)]
pub struct Printer<W: Write> {
    writer: W,
    has_failed: bool,
}

impl<W: Write> Printer<W> {
    /// Returns an output to this writer, without failures.
    pub fn new(writer: W) -> Printer<W>
        ensures writer { result.writer ≡ writer }
        ensures fresh { result.has_failed ≡ false }
    {
        Printer {
            writer,
            has_failed: false,
        }
    }
}

impl<W: Write> Output for Printer<W> {
    ghost contents = { λ printer. W.contents printer.writer };

    ghost failed = { λ printer. printer.has_failed };

    fn print(&mut self, text: &[u8]) -> Result<(), CannotWrite> {
        match self.writer.write_all(text) {
            Ok(()) => Ok(()),
            Err(_) => {
                self.has_failed = true;
                Err(CannotWrite)
            }
        }
    }
}

/// Each whole text is flushed, so that a log's lines can be read as they come.
impl<W: Write> Write for Printer<W> {
    ghost contents = { λ printer. W.contents printer.writer };

    fn write(&mut self, buf: &[u8]) -> io::Result<usize> {
        self.writer.write(buf)
    }

    fn flush(&mut self) -> io::Result<()> {
        self.writer.flush()
    }

    fn write_all(&mut self, buf: &[u8]) -> io::Result<()> {
        self.writer.write_all(buf)?;
        self.writer.flush()
    }
}

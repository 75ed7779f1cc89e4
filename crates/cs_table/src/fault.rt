ghost use Rattle.std.specs.Prelude.{◌≡◌, ◌≤◌, ◌<◌, ◌+◌, ◌^◌, length, Result, IfErr};
ghost use Rattle.cs_table.specs.Wrong.{at_end, at_front, at_nul, last_byte, whole, marked, moved};
ghost use Rattle.cs_table.specs.Table.{found_at, as_error};

use crate::text::nul_left;
use std::alloc::{AllocError, AllocFailed};
use std::fmt::Display;
use thiserror::Error;

/// What is wrong with a line, and where.
#[derive(Clone, Copy, PartialEq, Eq)]
pub struct Wrong<F> {
    /// What is wrong.
    pub fault: F,
    /// How many bytes the line has from the wrong text on.
    pub left: usize,
    /// How many bytes the wrong text has.
    pub length: usize,
}

impl<F: Drop> Wrong<F> {
    /// The line ends too early.
    pub fn at_end(fault: F) -> Wrong<F>
        ensures { result ≡ at_end fault }
    {
        Wrong {
            fault,
            left: 0,
            length: 0,
        }
    }

    /// The last byte of the line is wrong.
    pub fn last_byte(fault: F) -> Wrong<F>
        ensures { result ≡ last_byte fault }
    {
        Wrong {
            fault,
            left: 1,
            length: 1,
        }
    }

    /// A word at the front of the text is wrong.
    pub fn at_front(fault: F, text: &[u8], word: &[u8]) -> Wrong<F>
        ensures { result ≡ at_front fault text.now word.now }
    {
        Wrong {
            fault,
            left: text.len(),
            length: word.len(),
        }
    }

    /// The end of the line is wrong, from this text on.
    pub fn whole(fault: F, text: &[u8]) -> Wrong<F>
        ensures { result ≡ whole fault text.now }
    {
        Wrong {
            fault,
            left: text.len(),
            length: text.len(),
        }
    }

    /// The first zero byte of the line is wrong.
    pub fn at_nul(fault: F, line: &[u8]) -> Wrong<F>
        ensures { result ≡ at_nul fault line.now }
    {
        Wrong {
            fault,
            left: nul_left(line),
            length: 1,
        }
    }

    /// The fault with its place: the line of that number, and the column.
    pub fn at(self, number: u32, line: &[u8]) -> TableFault<F>
        requires { self.left ≤ length line.now }
        ensures { result ≡ as_error (found_at number line.now self) }
    {
        TableFault::At {
            line: number,
            column: line.len() - self.left + 1,
            length: self.length,
            fault: self.fault,
        }
    }
}

/// Gives a fault its place.
pub fn marked<T: Drop, F: Drop>(
    left: usize,
    length: usize,
    read: Result<T, F>,
) -> Result<T, Wrong<F>>
    ensures { result ≡ marked left length read }
{
    match read {
        Ok(value) => Ok(value),
        Err(fault) => Err(Wrong {
            fault,
            left,
            length,
        }),
    }
}

/// The same for a reading of the front of a text, where more bytes follow.
pub fn moved<T: Drop, F: Drop>(more: usize, read: Result<T, Wrong<F>>) -> Result<T, Wrong<F>>
    requires { IfErr read (λ wrong. wrong.left + more < 2 ^ 64) }
    ensures { result ≡ moved more read }
{
    match read {
        Ok(value) => Ok(value),
        Err(wrong) => Err(Wrong {
            fault: wrong.fault,
            left: wrong.left + more,
            length: wrong.length,
        }),
    }
}

/// Why a table could not be read.
#[derive(Clone, Copy, Debug, PartialEq, Eq, Error)]
#[error_bound(F: Display)]
pub enum TableFault<F> {
    /// The first line with a fault, from 1; the column of the wrong text in that line, in bytes
    /// from 1; its length in bytes; and the fault. All three are 0 if the table is too long.
    #[error("line {line}: {fault}")]
    At {
        line: u32,
        column: usize,
        length: usize,
        fault: F,
    },
    /// Memory ran out.
    #[error("out of memory")]
    OutOfMemory,
}

impl<F: Drop> From<AllocError> for TableFault<F> {
    ghost use Rattle.std.specs.Prelude.{◌≡◌};
    ghost use Rattle.cs_table.specs.declared.fault.TableFault.TheVariants.{OutOfMemory};

    ghost from_gives = { λ _ e. e ≡ OutOfMemory };

    fn from(_e: AllocError) -> TableFault<F> {
        TableFault::OutOfMemory
    }
}

impl<F: Drop, T: Drop> From<AllocFailed<T>> for TableFault<F> {
    ghost use Rattle.std.specs.Prelude.{◌≡◌};
    ghost use Rattle.cs_table.specs.declared.fault.TableFault.TheVariants.{OutOfMemory};

    ghost from_gives = { λ _ e. e ≡ OutOfMemory };

    fn from(_e: AllocFailed<T>) -> TableFault<F> {
        TableFault::OutOfMemory
    }
}

//! A process with hardly any memory left, for tests of what happens when memory runs out.

ghost use Rattle.std.specs.Prelude.{◌≡◌, ◌<◌, ◌↔◌, [], IfOk, IsTrue, length};

use std::alloc::{AllocError, Global};

/// The largest block that is asked for, in bytes.
const LARGEST: usize = 1 << 36;

/// The bytes of a piece of the reserve: the C library keeps pieces of this size side by side.
const PIECE: usize = 1 << 16;

const MOST_BLOCKS: usize = 1 << 16;

/// Holds all the memory that the process can get, except a reserve that is given back bit by bit.
/// Meanwhile each growth that finds no room in what was given back is refused.
#[derive(Drop)]
pub struct Hoard {
    alloc: Global,
    blocks: Vec<Vec<u8>>,
    reserve: Vec<Vec<u8>>,
}

impl Hoard {
    /// A hoard that holds nothing but its reserve, of so many pieces of 64 KiB.
    pub fn new(alloc: Global, pieces: usize) -> Result<Hoard, AllocError>
        ensures { IfOk result (λ hoard. hoard.blocks.items ≡ []) }
    {
        let blocks = Vec::with_capacity(alloc, MOST_BLOCKS)?;
        let mut reserve = Vec::with_capacity(alloc, pieces)?;
        for _ in 0..pieces {
            reserve.push(Vec::with_capacity(alloc, PIECE)?)?;
        }
        Ok(Hoard {
            alloc,
            blocks,
            reserve,
        })
    }

    fn take_all(&mut self, size: usize) {
        for _ in 0..MOST_BLOCKS {
            let Ok(block) = Vec::with_capacity(self.alloc, size) else {
                break;
            };
            if self.blocks.push(block).is_err() {
                break;
            }
        }
    }

    /// Takes all the memory that is left.
    pub fn take_rest(&mut self) {
        let mut size = LARGEST;
        for _ in 0..40 {
            self.take_all(size);
            size = (size / 2).max(8);
        }
    }

    /// Gives back `len` bytes of the reserve, or what is left of a piece if that is less. Answers
    /// whether there was any.
    pub fn give_back(&mut self, len: usize) -> bool
        ensures some { IsTrue result ↔ 0 < length self.old.reserve.items }
        ensures blocks { self.new.blocks ≡ self.old.blocks }
    {
        let Some(mut piece) = self.reserve.pop() else {
            return false;
        };
        let old = piece.capacity();
        if len < old {
            piece.shrink_to(old - len);
            let _ = self.reserve.push(piece);
        }
        true
    }

    /// Gives back all but the reserve.
    pub fn free_all(&mut self)
        ensures blocks { self.new.blocks.items ≡ [] }
        ensures reserve { self.new.reserve ≡ self.old.reserve }
    {
        self.blocks.clear();
    }
}

/// A range of bytes in a file or in a line, from 0.
#[derive(Clone, Copy, PartialEq, Eq)]
pub struct Span {
    /// The first byte.
    pub from: usize,
    /// The first byte after it.
    pub to: usize,
}

impl Span {
    /// From one offset to before another.
    pub fn between(from: usize, to: usize) -> Span {
        Span { from, to }
    }

    /// `len` bytes from an offset on.
    pub fn of(from: usize, len: usize) -> Span {
        Span::between(from, from.saturating_add(len))
    }

    /// How many bytes it has.
    pub fn len(self) -> usize {
        self.to.saturating_sub(self.from)
    }

    /// Whether it has no bytes.
    pub fn is_empty(self) -> bool {
        self.len() == 0
    }

    /// The same bytes in a text where `start` bytes precede.
    pub fn behind(self, start: usize) -> Span {
        Span::of(self.from.saturating_add(start), self.len())
    }

    /// The bytes of the text in the range; fewer where the text ends.
    pub fn bytes(self, text: &[u8]) -> &[u8] {
        let to = self.to.min(text.len());
        &text[self.from.min(to)..to]
    }
}

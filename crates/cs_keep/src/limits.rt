//! The limit of a journal.

/// The most entries of a journal, with room for the ends of the running runs.
pub const MAX_ENTRIES: usize = 4_194_304;

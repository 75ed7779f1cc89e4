/// The most bytes of a table: 1 MiB (this profile).
pub const MAX_TABLE: usize = 1_048_576;

/// The most bytes of a line, without its newline (this profile).
pub const MAX_LINE: usize = 4_096;

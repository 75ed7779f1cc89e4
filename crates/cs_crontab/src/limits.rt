/// The most command lines of a table (this profile).
pub const MAX_COMMANDS: usize = 256;

/// The most jobs of an anacrontab (this profile).
pub const MAX_JOBS: usize = 64;

/// The longest period, in days (this profile).
pub const MAX_PERIOD: u32 = 100_000;

/// The longest delay, in minutes (this profile).
pub const MAX_DELAY: u32 = 100_000;

/// The most bytes of an identifier (this profile).
pub const MAX_IDENTIFIER: usize = 200;

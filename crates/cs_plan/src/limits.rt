/// The longest time that a job may declare, in minutes: three days (this profile).
pub const MAX_MINUTES: u16 = 4_320;

/// The greatest weight of a job (this profile).
pub const MAX_WEIGHT: u8 = 64;

/// The greatest capacity (this profile).
pub const MAX_CAPACITY: u8 = 64;

/// The most groups of a plan (this profile).
pub const MAX_GROUPS: usize = 64;

/// The greatest offset from UTC in minutes, either way (this profile).
pub const MAX_OFFSET: u16 = 1_439;

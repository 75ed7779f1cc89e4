/// The most bytes of a certificate's text.
pub const MAX_CERTIFICATE: usize = 16_777_216;

/// The most classes of a certificate of version 1 or 2.
pub const MAX_CLASSES: usize = 512;

/// The most classes of a certificate of version 3: one for each kind of day.
pub const MAX_KIND_CLASSES: usize = 2_562;

/// The greatest depth of a day tree and of a minute tree: a leaf has depth 0.
pub const MAX_DEPTH: u8 = 24;

/// The most entries of a leaf of a minute tree.
pub const MAX_ENTRIES: usize = 4_096;

/// Job numbers are below this one: 256 commands of a crontab, and 64 jobs of an anacrontab.
pub const MAX_JOBS: u16 = 320;

/// Group numbers are below this one.
pub const MAX_GROUPS: u8 = 64;

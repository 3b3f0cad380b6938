//! The limits of the product, each named once.

/// The most events of a trace.
pub const MAX_EVENTS: u32 = 65_536;

/// The most threads that a trace or a script names.
pub const MAX_THREADS: u16 = 64;

/// The most locks that a trace or a script names.
pub const MAX_LOCKS: u32 = 4_096;

/// The most variables that a trace or a script names.
pub const MAX_VARS: u32 = 65_536;

/// The most bytes of a name.
pub const MAX_NAME: usize = 255;

/// The most bytes of a trace line without its newline.
pub const MAX_LINE: usize = 4_096;

/// The most bytes of an input.
pub const MAX_INPUT: u32 = 16_777_216;

/// The most instructions of a script, over all its threads.
pub const MAX_INSTRUCTIONS: u32 = 65_536;

/// The most blocks of a script that are open at once.
pub const MAX_DEPTH: u32 = 64;

/// The most abstract deadlock patterns that are listed.
pub const MAX_PATTERNS: u32 = 4_096;

/// The most workers of a search.
pub const MAX_WORKERS: u8 = 64;

/// The least size of a deadlock pattern.
pub const MIN_SIZE: u8 = 2;

/// The greatest size of a deadlock pattern.
pub const MAX_SIZE: u8 = 4;

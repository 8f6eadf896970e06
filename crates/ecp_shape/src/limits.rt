//! The limits of the product. A definition, a contract or code that has a limit names it from here.

/// How many rows a stripe has at most.
pub const MAX_ROWS: u32 = 16;

/// How many nodes a service has at most.
pub const MAX_NODES: u32 = 32;

/// How many bytes a block has at most: 64 KiB.
pub const MAX_BLOCK: u32 = 65_536;

/// How many slices one fetch has in flight at most.
pub const MAX_WINDOW: u32 = 16;

/// How many threads turn the helpers at most, beside those of the sessions.
pub const MAX_WORKERS: u32 = 8;

/// How many sessions a script has at most. They are numbered from 0; greater caller numbers are those of nodes.
pub const MAX_SESSIONS: u32 = 8;

/// How often a fetch, a put or a part of a rebuild is tried at most.
pub const MAX_ATTEMPTS: u32 = 16;

/// How many bytes an input has at most: 16 MiB.
pub const MAX_INPUT: usize = 16_777_216;

/// How many bytes a name of a file has at most.
pub const MAX_NAME: usize = 64;

/// How many lines a script has at most, without those that are skipped.
pub const MAX_LINES: u64 = 10_000;

/// How many bytes one put has at most: 4 MiB.
pub const MAX_PUT_BYTES: u64 = 4_194_304;

/// How many stripes one put fills at most.
pub const MAX_PUT_STRIPES: u64 = 4_096;

/// How many bytes all puts of a script have at most: 64 MiB.
pub const MAX_BYTES: u64 = 67_108_864;

/// How many stripes all puts of a script fill at most.
pub const MAX_STRIPES: u64 = 65_536;

/// How many bytes all rows of these stripes have at most: 1 GiB.
pub const MAX_STORED: u64 = 1_073_741_824;

/// How many bytes the blocks have at most that the `read` lines of a script ask for: 64 MiB.
pub const MAX_READ: u64 = 67_108_864;

/// How many entries a history has at most, those of blocks that were given up left out: a bound on the costs of a
/// script.
pub const MAX_ENTRIES: u64 = 4_194_304;

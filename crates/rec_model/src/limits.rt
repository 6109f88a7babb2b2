//! The limits of heaps, of scripts and of runs. Whoever stands above takes these from here, and contracts cite them.

/// How many slots a heap has at most.
pub const MOST_SLOTS: u32 = 65_535;

/// How many fields an object has at most.
pub const MOST_FIELDS: u32 = 16;

/// How many registers a mutator has at most.
pub const MOST_REGISTERS: u32 = 64;

/// How many mutators a heap has at most. A field's word has six bits for the number of its writer, and 0 is nobody.
pub const MOST_MUTATORS: u8 = 63;

/// How many mutators a script of version 1 or 2 has at most, and one that is made.
pub const MOST_SCRIPT_MUTATORS: u8 = 8;

/// How many entries a log holds at most.
pub const MOST_LOG_ENTRIES: u32 = 262_143;

/// How many bytes a script has at most.
pub const MOST_BYTES: usize = 16_777_216;

/// How many commands of each mutator a script has at most.
pub const MOST_COMMANDS: usize = 200_000;

/// How many turns are drawn at most where a script is played, and how many the collector makes at most where it runs on threads.
pub const MOST_TURNS: u32 = 10_000_000;

/// How often a mutator polls at most behind its last command, where a script runs on threads.
pub const MOST_POLLS: u32 = 65_536;

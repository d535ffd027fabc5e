// Limits of rule 1.6 and layouts of the lent buffers (rules 7.1 to 7.3) that several crates go by, each
// by its name.

// How many bits a set has: how many nodes or terms it can tell apart.
pub const SET_BITS: usize = 64;

// The least and the most nodes of a graph.
pub const MIN_NODES: u64 = 2;

pub const MAX_NODES: usize = 32;

// The most terms: proposals, logged terms of a node, and records.
pub const MAX_TERMS: usize = 64;

pub const MAX_REPEATS: u64 = 64;

pub const MAX_ROUND_SLOTS: u64 = 4096;

// The most children of a node of a tree.
pub const MAX_BRANCHING: u64 = 32;

// The least length limit of a flood whose round slots are absent.
pub const LEAST_LENGTH: u64 = 3;

// End 2: the round's index is above the proposals plus this times the diameter.
pub const ROUNDS_PER_LINK: u64 = 5;

// End 3: the round's index is above the proposals plus this.
pub const EXTRA_ROUNDS: u64 = 1000;

// A run of P proposals has at most P plus this many rounds.
pub const ENOUGH_ROUNDS: u64 = EXTRA_ROUNDS + 2;

// A record: id, start, end.
pub const RECORD_SIZE: usize = 3;

pub const RECORDS_SIZE: usize = RECORD_SIZE * MAX_TERMS;

// A snapshot: slot, progress, listening, flooding, sleeping.
pub const SNAPSHOT_SIZE: usize = 5;

// The log buffer: the terms of node i from MAX_TERMS times i on, its count at LOG_COUNTS + i.
pub const LOG_COUNTS: usize = MAX_TERMS * MAX_NODES;

pub const LOG_SIZE: usize = LOG_COUNTS + MAX_NODES;

// The most snapshots that the program lists.
pub const MAX_LISTED: usize = 1000;

pub const LISTED_SIZE: usize = SNAPSHOT_SIZE * MAX_LISTED;

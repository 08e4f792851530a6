// How much there may be of anything. specs/Limits has the same numbers, and the contracts that use them hold the two together.
#![tactic(auto)]

// Bytes of a text.
pub const TEXT_MAX: usize = 16384;

// Whole tokens of a table.
pub const TOKENS_MAX: usize = 4096;

// Rows of either family.
pub const ROWS_MAX: usize = 2048;

// Levels of a reading.
pub const LEVELS_MAX: usize = 64;

// The value of an Integer that is read.
pub const INTEGER_MAX: u64 = 9223372036854775807;

// The number of a column.
pub const COLUMN_MAX: u64 = 65535;

// Clauses of a predicate, and the literals in all of them.
pub const CLAUSES_MAX: u32 = 1024;

pub const LITERALS_MAX: u32 = 8192;

// One more than CLAUSES_MAX: where counts stop.
pub const CLAUSES_HELD: u32 = CLAUSES_MAX + 1;

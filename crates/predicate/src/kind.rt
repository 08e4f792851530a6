// The kinds of predicate rows. specs/Kind has the same numbers, and the contracts hold the two together.
// They stay numbers: callers' rows have them, at the C face too, and `Class` is the enum that the code goes by.

// Constants.
pub const NULL: u64 = 1;

pub const BOOLEAN: u64 = 2;

pub const INTEGER: u64 = 3;

pub const FLOAT: u64 = 4;

pub const STRING: u64 = 5;

pub const COLUMN: u64 = 6;

// What predicates are split at.
pub const AND: u64 = 7;

pub const OR: u64 = 8;

pub const NOT: u64 = 9;

// Every other operator.
pub const EQUAL: u64 = 10;

pub const GREATER_THAN: u64 = 11;

pub const LESS_THAN: u64 = 12;

pub const IS: u64 = 13;

pub const ADD: u64 = 14;

pub const DIVIDE: u64 = 15;

pub const EXPONENTIATE: u64 = 16;

pub const FACTORIAL: u64 = 17;

pub const IDENTITY: u64 = 18;

pub const MULTIPLY: u64 = 19;

pub const NEGATE: u64 = 20;

pub const REMAINDER: u64 = 21;

pub const SQUARE_ROOT: u64 = 22;

pub const SUBTRACT: u64 = 23;

pub const LIKE: u64 = 24;

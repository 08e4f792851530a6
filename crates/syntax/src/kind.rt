// The kinds of syntax rows: leaves, a function, rows over one operand, rows over two. They stay numbers: callers' tables have them, at the C face too.
pub const ALL: u64 = 1;

pub const INTEGER: u64 = 2;

pub const FLOAT: u64 = 3;

pub const INFINITY: u64 = 4;

pub const NAN: u64 = 5;

pub const STRING: u64 = 6;

pub const BOOLEAN: u64 = 7;

pub const NULL: u64 = 8;

pub const COLUMN: u64 = 9;

pub const QUALIFIED: u64 = 10;

pub const FUNCTION: u64 = 11;

pub const IDENTITY: u64 = 12;

pub const NEGATE: u64 = 13;

pub const NOT: u64 = 14;

pub const FACTORIAL: u64 = 15;

pub const IS: u64 = 16;

pub const AND: u64 = 17;

pub const OR: u64 = 18;

pub const EQUAL: u64 = 19;

pub const NOT_EQUAL: u64 = 20;

pub const GREATER_THAN: u64 = 21;

pub const GREATER_THAN_OR_EQUAL: u64 = 22;

pub const LESS_THAN: u64 = 23;

pub const LESS_THAN_OR_EQUAL: u64 = 24;

pub const LIKE: u64 = 25;

pub const ADD: u64 = 26;

pub const SUBTRACT: u64 = 27;

pub const MULTIPLY: u64 = 28;

pub const DIVIDE: u64 = 29;

pub const REMAINDER: u64 = 30;

pub const EXPONENTIATE: u64 = 31;

// The kinds of tokens. Numbers, strings and names; then the signs and the keywords that expressions use, infix operators by rising precedence;
// then the other keywords, by the alphabet. They stay numbers and become no enum: callers' tables have them, at the C face too, and any number at all may
// stand there.

// What carries a spelling.
pub const NUMBER: u32 = 1;

pub const STRING: u32 = 2;

pub const IDENT: u32 = 3;

// Infix operators.
pub const OR: u32 = 4;

pub const AND: u32 = 5;

pub const EQUAL: u32 = 6; // =

pub const NOT_EQUAL: u32 = 7; // !=

pub const LESS_OR_GREATER_THAN: u32 = 8; // <>

pub const LIKE: u32 = 9;

pub const GREATER_THAN: u32 = 10; // >

pub const GREATER_THAN_OR_EQUAL: u32 = 11; // >=

pub const LESS_THAN: u32 = 12; // <

pub const LESS_THAN_OR_EQUAL: u32 = 13; // <=

pub const PLUS: u32 = 14; // +

pub const MINUS: u32 = 15; // -

pub const ASTERISK: u32 = 16; // *

pub const SLASH: u32 = 17; // /

pub const PERCENT: u32 = 18; // %

pub const CARET: u32 = 19; // ^

// What else expressions use.
pub const EXCLAMATION: u32 = 20; // !

pub const IS: u32 = 21;

pub const NOT: u32 = 22;

pub const NULL: u32 = 23;

pub const NAN: u32 = 24;

pub const TRUE: u32 = 25;

pub const FALSE: u32 = 26;

pub const INFINITY: u32 = 27;

pub const OPEN_PAREN: u32 = 28; // (

pub const CLOSE_PAREN: u32 = 29; // )

pub const COMMA: u32 = 30; // ,

pub const PERIOD: u32 = 31; // .

pub const SEMICOLON: u32 = 32; // ;

// Keywords of statements.
pub const AS: u32 = 33;

pub const ASC: u32 = 34;

pub const BEGIN: u32 = 35;

pub const BOOL: u32 = 36;

pub const BOOLEAN: u32 = 37;

pub const BY: u32 = 38;

pub const COMMIT: u32 = 39;

pub const CREATE: u32 = 40;

pub const CROSS: u32 = 41;

pub const DEFAULT: u32 = 42;

pub const DELETE: u32 = 43;

pub const DESC: u32 = 44;

pub const DOUBLE: u32 = 45;

pub const DROP: u32 = 46;

pub const EXISTS: u32 = 47;

pub const EXPLAIN: u32 = 48;

pub const FLOAT: u32 = 49;

pub const FROM: u32 = 50;

pub const GROUP: u32 = 51;

pub const HAVING: u32 = 52;

pub const IF: u32 = 53;

pub const INDEX: u32 = 54;

pub const INNER: u32 = 55;

pub const INSERT: u32 = 56;

pub const INT: u32 = 57;

pub const INTEGER: u32 = 58;

pub const INTO: u32 = 59;

pub const JOIN: u32 = 60;

pub const KEY: u32 = 61;

pub const LEFT: u32 = 62;

pub const LIMIT: u32 = 63;

pub const OF: u32 = 64;

pub const OFFSET: u32 = 65;

pub const ON: u32 = 66;

pub const ONLY: u32 = 67;

pub const ORDER: u32 = 68;

pub const OUTER: u32 = 69;

pub const PRIMARY: u32 = 70;

pub const READ: u32 = 71;

pub const REFERENCES: u32 = 72;

pub const RIGHT: u32 = 73;

pub const ROLLBACK: u32 = 74;

pub const SELECT: u32 = 75;

pub const SET: u32 = 76;

pub const STRING_TYPE: u32 = 77;

pub const SYSTEM: u32 = 78;

pub const TABLE: u32 = 79;

pub const TEXT: u32 = 80;

pub const TIME: u32 = 81;

pub const TRANSACTION: u32 = 82;

pub const UNIQUE: u32 = 83;

pub const UPDATE: u32 = 84;

pub const VALUES: u32 = 85;

pub const VARCHAR: u32 = 86;

pub const WHERE: u32 = 87;

pub const WRITE: u32 = 88;

// The last kind: 0 and all above are unknown.
pub const LAST: u32 = 88;

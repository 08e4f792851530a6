// The names of kinds, and what is said of each refusal.
use crate::out::print_line_number;
use predicate::kind as predicate_kind;
use refusals::{Refusal, Refused};
use std::io;
use std::io::Write;
use syntax::kind as syntax_kind;

// Answers the name of a syntax row's kind; `?` of 0, and nothing of another number that is no kind. The program prints these as they are: no Option.
pub fn syntax_name(kind: u64) -> &'static str {
    match kind {
        0 => "?",
        syntax_kind::ALL => "All",
        syntax_kind::INTEGER => "Integer",
        syntax_kind::FLOAT => "Float",
        syntax_kind::INFINITY => "Infinity",
        syntax_kind::NAN => "NaN",
        syntax_kind::STRING => "String",
        syntax_kind::BOOLEAN => "Boolean",
        syntax_kind::NULL => "Null",
        syntax_kind::COLUMN | syntax_kind::QUALIFIED => "Column",
        syntax_kind::FUNCTION => "Function",
        syntax_kind::IDENTITY => "Identity",
        syntax_kind::NEGATE => "Negate",
        syntax_kind::NOT => "Not",
        syntax_kind::FACTORIAL => "Factorial",
        syntax_kind::IS => "Is",
        syntax_kind::AND => "And",
        syntax_kind::OR => "Or",
        syntax_kind::EQUAL => "Equal",
        syntax_kind::NOT_EQUAL => "NotEqual",
        syntax_kind::GREATER_THAN => "GreaterThan",
        syntax_kind::GREATER_THAN_OR_EQUAL => "GreaterThanOrEqual",
        syntax_kind::LESS_THAN => "LessThan",
        syntax_kind::LESS_THAN_OR_EQUAL => "LessThanOrEqual",
        syntax_kind::LIKE => "Like",
        syntax_kind::ADD => "Add",
        syntax_kind::SUBTRACT => "Subtract",
        syntax_kind::MULTIPLY => "Multiply",
        syntax_kind::DIVIDE => "Divide",
        syntax_kind::REMAINDER => "Remainder",
        syntax_kind::EXPONENTIATE => "Exponentiate",
        _ => "",
    }
}

// Answers the name of a predicate row's kind; `?` of 0, and nothing of another number that is no kind. The program prints these as they are: no Option.
pub fn predicate_name(kind: u64) -> &'static str {
    match kind {
        0 => "?",
        predicate_kind::NULL => "Null",
        predicate_kind::BOOLEAN => "Boolean",
        predicate_kind::INTEGER => "Integer",
        predicate_kind::FLOAT => "Float",
        predicate_kind::STRING => "String",
        predicate_kind::COLUMN => "Column",
        predicate_kind::AND => "And",
        predicate_kind::OR => "Or",
        predicate_kind::NOT => "Not",
        predicate_kind::EQUAL => "Equal",
        predicate_kind::GREATER_THAN => "GreaterThan",
        predicate_kind::LESS_THAN => "LessThan",
        predicate_kind::IS => "Is",
        predicate_kind::ADD => "Add",
        predicate_kind::DIVIDE => "Divide",
        predicate_kind::EXPONENTIATE => "Exponentiate",
        predicate_kind::FACTORIAL => "Factorial",
        predicate_kind::IDENTITY => "Identity",
        predicate_kind::MULTIPLY => "Multiply",
        predicate_kind::NEGATE => "Negate",
        predicate_kind::REMAINDER => "Remainder",
        predicate_kind::SQUARE_ROOT => "SquareRoot",
        predicate_kind::SUBTRACT => "Subtract",
        predicate_kind::LIKE => "Like",
        _ => "",
    }
}

// Answers the name of a refusal. The four that need some token are WRONG_TOKEN to callers.
fn name_of(why: Refusal) -> &'static str {
    match why {
        Refusal::TooLong => "TOO_LONG",
        Refusal::BadTable => "BAD_TABLE",
        Refusal::End => "END",
        Refusal::NoAtom => "NO_ATOM",
        Refusal::NeedClose | Refusal::NeedComma => "WRONG_TOKEN",
        Refusal::NeedName | Refusal::NeedNullOrNan => "WRONG_TOKEN",
        Refusal::LeftOver => "LEFT_OVER",
        Refusal::BadNumber => "BAD_NUMBER",
        Refusal::TooDeep => "TOO_DEEP",
        Refusal::NoRoom => "NO_ROOM",
        Refusal::BadTree => "BAD_TREE",
        Refusal::TooMany => "TOO_MANY",
        Refusal::NoList => "NO_LIST",
        Refusal::NotLookup => "NOT_LOOKUP",
        Refusal::NoSuch => "NO_SUCH",
    }
}

// Answers what the place of a refusal counts, if it counts something.
fn counted_by(why: Refusal) -> Option<&'static str> {
    match why {
        Refusal::TooLong | Refusal::TooMany | Refusal::NoList => None,
        Refusal::NotLookup | Refusal::NoSuch => None,
        Refusal::BadTree => Some("row"),
        _ => Some("token"),
    }
}

// Answers what a refusal means.
fn meaning_of(why: Refusal) -> &'static str {
    match why {
        Refusal::TooLong => "more than 16384 bytes of text, 4096 tokens or 2048 rows",
        Refusal::BadTable => "a token that is of no kind, outside the text or cut short",
        Refusal::End => "something is missing after the last token",
        Refusal::NoAtom => "no operand starts with this token",
        Refusal::NeedClose | Refusal::NeedComma => "another token is needed here",
        Refusal::NeedName | Refusal::NeedNullOrNan => "another token is needed here",
        Refusal::LeftOver => "the expression has ended before this token",
        Refusal::BadNumber => "not a number, or one above 9223372036854775807",
        Refusal::TooDeep => "more than 64 levels",
        Refusal::NoRoom => "more than 2048 rows",
        Refusal::BadTree => "not the rows of one tree",
        Refusal::TooMany => "more than 1024 clauses or 8192 literals",
        Refusal::NoList => "a list is too short",
        Refusal::NotLookup => "not a lookup",
        Refusal::NoSuch => "no such clause or value",
    }
}

// Prints a refusal: its name and its number, its place if that counts something, and what it means.
pub fn print_refusal(out: &mut impl Write, line: u64, refused: Refused) -> io::Result<()> {
    let Refused { why, place } = refused;
    print_line_number(out, line)?;
    write!(out, "{} ({})", name_of(why), u32::from(why))?;
    if let Some(counted) = counted_by(why) {
        write!(out, " at {counted} {place}")?;
    }
    writeln!(out, ": {}", meaning_of(why))
}

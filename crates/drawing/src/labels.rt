// What a row is called in a drawing: its kind's name, with a value or the names that it holds.
use crate::names::{predicate_name, syntax_name};
use crate::out::{print_between, print_quoted};
use predicate::kind as predicate_kind;
use rows::Row;
use std::io;
use std::io::Write;
use syntax::kind as syntax_kind;
use tokens::table::spelled;
use values::{Constant, Value};

// Answers a truth value as it is written.
fn truth(yes: bool) -> &'static str {
    if yes { "TRUE" } else { "FALSE" }
}

// Answers what IS asks for.
fn null_or_nan(y: u64) -> &'static str {
    if y == 0 { "NULL" } else { "NAN" }
}

// Prints a value: a Float by its bits, and a String as the part of the text that it is.
pub fn print_value(out: &mut impl Write, text: &[u8], v: Value) -> io::Result<()> {
    match v {
        Value::Null => write!(out, "NULL"),
        Value::Boolean(b) => write!(out, "{}", truth(b)),
        Value::Integer(n) => write!(out, "{n}"),
        Value::Float(f) if f.is_nan() => write!(out, "NAN"),
        Value::Float(_) => write!(out, "0x{:016x}", Constant::from(v).x),
        Value::String { start, length } => {
            let part = text.get(start..start.saturating_add(length));
            print_quoted(out, part.unwrap_or(b""))
        }
    }
}

// Prints a syntax row. The arguments of a Function are drawn below it.
pub fn print_syntax_row(
    out: &mut impl Write,
    text: &[u8],
    tokens: &[u32],
    row: Row,
) -> io::Result<()> {
    let token = |n: u64| spelled(text, tokens, n as usize);
    write!(out, "{}", syntax_name(row.kind))?;
    match row.kind {
        syntax_kind::INTEGER => write!(out, " {}", row.x),
        syntax_kind::FLOAT | syntax_kind::COLUMN | syntax_kind::FUNCTION => print_between(
            out,
            " ",
            token(row.x),
            "",
        ),
        syntax_kind::STRING => print_between(out, " '", token(row.x), "'"),
        syntax_kind::BOOLEAN => write!(out, " {}", truth(row.x != 0)),
        syntax_kind::QUALIFIED => {
            print_between(out, " ", token(row.x), ".")?;
            out.write_all(token(row.y))
        }
        syntax_kind::IS => write!(out, " {}", null_or_nan(row.y)),
        _ => Ok(()),
    }
}

// Prints the value of a constant's row.
fn print_constant(out: &mut impl Write, text: &[u8], row: Row) -> io::Result<()> {
    write!(out, " ")?;
    print_value(out, text, Value::from(Constant::from(row)))
}

// Prints a predicate row.
pub fn print_predicate_row(out: &mut impl Write, text: &[u8], row: Row) -> io::Result<()> {
    write!(out, "{}", predicate_name(row.kind))?;
    match row.kind {
        predicate_kind::BOOLEAN
        | predicate_kind::INTEGER
        | predicate_kind::FLOAT
        | predicate_kind::STRING => print_constant(out, text, row),
        predicate_kind::COLUMN => write!(out, " {}", row.x),
        predicate_kind::IS => write!(out, " {}", null_or_nan(row.y)),
        _ => Ok(()),
    }
}

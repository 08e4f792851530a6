// Atoms: what one starts with, and those that hold no expression.
ghost use Rattle.std.specs.Prelude.{◌≡◌, ◌≤◌, ◌<◌};
ghost use Rattle.tokens.specs.Token.{token_count, spelled};
ghost use Rattle.numbers.specs.Number.{number_of};
ghost use Rattle.grammar.specs.Atom.{start_of};
ghost use Rattle.grammar.specs.Memory.{Gives, numeral as numeral_of, column as column_of};

use crate::push::{push_leaf, push_row};
use crate::token::need;
use grammar::{Cursor, Start};
use numbers::Number;
use refusals::{Refusal, Refused};
use rows::Row;
use syntax::kind as row;
use tokens::table::kind_at;
use tokens::{kind, table};

// Answers what a token of this kind starts.
#[tactic(auto, unfolding(grammar::specs::Atom::start_of, operators::specs::Operator::among))]
pub fn start_of(k: u32) -> Start
    ensures { result ≡ start_of k }
{
    match k {
        0 => Start::Nothing,
        kind::NUMBER => Start::Number,
        kind::STRING => Start::Text,
        kind::IDENT => Start::Name,
        kind::ASTERISK => Start::Plain(row::ALL, 0),
        kind::NULL => Start::Plain(row::NULL, 0),
        kind::NAN => Start::Plain(row::NAN, 0),
        kind::TRUE => Start::Plain(row::BOOLEAN, 1),
        kind::FALSE => Start::Plain(row::BOOLEAN, 0),
        kind::INFINITY => Start::Plain(row::INFINITY, 0),
        kind::OPEN_PAREN => Start::Paren,
        _ => Start::Other,
    }
}

// Reads a number, by its spelling: an Integer's row has its value, a Float's its token.
#[tactic(auto, unfolding(grammar::specs::Memory::numeral))]
pub fn numeral(text: &[u8], tokens: &[u32], rows: &mut [u64], c: Cursor) -> Result<Cursor, Refused>
    requires { c.at < token_count tokens.now }
    ensures { Gives (numeral_of (number_of (spelled text.now tokens.now c.at)) c rows.old) result rows.new }
{
    match numbers::number_of(table::spelled(text, tokens, c.at)) {
        Some(Number::Integer(n)) => push_leaf(rows, c, row::INTEGER, n),
        Some(Number::Float) => push_leaf(rows, c, row::FLOAT, c.at as u64),
        None => Err(Refusal::BadNumber.at(c.at)),
    }
}

// Reads a column: name.name or name.
#[tactic(auto, using(grammar::proofs::Answers::goes_on), unfolding(grammar::specs::Memory::column))]
pub fn column(tokens: &[u32], rows: &mut [u64], c: Cursor) -> Result<Cursor, Refused>
    requires { c.at < token_count tokens.now }
    ensures { Gives (column_of tokens.now c rows.old) result rows.new }
{
    if kind_at(tokens, c.at + 1) != kind::PERIOD {
        return push_leaf(rows, c, row::COLUMN, c.at as u64);
    }
    let d = need(tokens, c.past(2), kind::IDENT, Refusal::NeedName)?;
    push_row(
        rows,
        d,
        Row {
            kind: row::QUALIFIED,
            x: c.at as u64,
            y: (c.at + 2) as u64,
        },
    )
}

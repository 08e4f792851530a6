// Two readers that call each other, with fewer levels left each time round: of expressions, from a minimum precedence on, and of atoms.
// grammar/specs/Rules has the rules; grammar/specs/Memory has what is promised here.
//
// `2 ^ 3 ^ 2 - 4 * 3` shows how. The whole is read at minimum 0: the atom `2`, and then infix operators, each with its right side. `^` is read
// at its own precedence, 8, so that `3 ^ 2` is its right side; `-`, of precedence 6, is not at least 8 and ends it. Back at minimum 0 `-` is taken,
// with a right side at 7: `4 * 3`, since `*` has 7. Each tree's row is written once its operands stand before it, so the rows come out in post-order:
// 2, 3, 2, ^, ^, 4, 3, *, -.
//
// The module `shortcut` has what makes filters fast and changes no answer. A call that stays a call in the compiled code is lent `&*text` and
// `&*tokens`: so the compiler keeps a slice's two halves apart, and reads wait less.
#![tactic(auto)]

mod shortcut;

ghost use Rattle.std.specs.Prelude.{◌≡◌, ◌≤◌, ◌<◌};
ghost use Rattle.tokens.specs.Token.{token_count, kind_at};
ghost use Rattle.operators.specs.Operator.{infix_of, binds};
ghost use Rattle.grammar.specs.Memory.{Gives, expression as expression_of};
ghost use Rattle.reader.specs.Level.{operand as operand_of, atom as atom_of, group as group_of, named as named_of, arguments as arguments_of};
ghost use Rattle.reader.specs.Level.{argument as argument_of, infixes as infixes_of, infixed as infixed_of};

use crate::shortcut::{any_postfixes, single_token, single_token_operand};
use grammar::{Cursor, Start};
use refusals::{Refusal, Refused};
use rows::Row;
use steps::atom::{column, numeral, start_of};
use steps::postfix::{postfix_at, postfixes};
use steps::push::{push_leaf, push_over_last, push_row};
use steps::token::need;
use syntax::kind as row;
use tokens::kind;
use tokens::table::kind_at;

// Reads an expression at the minimum `min`, with so many levels left: the steps of docs/FORMAT.md §4.4.
#[cycle(reading)]
#[tactic(auto, using(grammar::proofs::RuleCases::expression_cases), unfolding(grammar::specs::Memory::level, grammar::specs::Memory::postfixes))]
pub fn expression(
    text: &[u8],
    tokens: &[u32],
    rows: &mut [u64],
    c: Cursor,
    levels: usize,
    min: u32,
) -> Result<Cursor, Refused>
    requires { c.at ≤ token_count tokens.now }
    ensures { Gives (expression_of text.now tokens.now levels min c rows.old) result rows.new }
{
    if levels == 0 {
        return Err(Refusal::TooDeep.at(c.at));
    }
    let rest = levels - 1;
    // (a) A prefix operator with its operand, or an atom.
    let after_operand = operand(text, tokens, rows, c, rest, min)?;
    // (b) Postfix operators.
    let after_postfixes = any_postfixes(tokens, rows, after_operand, min)?;
    // (c) Infix operators, each with its right side.
    let after_infixes = infixes(text, tokens, rows, after_postfixes, rest, min)?;
    // (d) Postfix operators once more. This is `any_postfixes` written out: called twice it would stay a call.
    let at = after_infixes.at;
    let n = after_infixes.rows;
    if !postfix_at(tokens, at, min) {
        return Ok(Cursor { at, rows: n });
    }
    postfixes(&*tokens, rows, Cursor { at, rows: n }, min)
}

// Reads a prefix operator of at least `min` with its operand, or else an atom.
#[cycle(reading)]
#[tactic(auto, using(grammar::proofs::Answers::goes_on), unfolding(grammar::specs::Memory::operand))]
fn operand(
    text: &[u8],
    tokens: &[u32],
    rows: &mut [u64],
    c: Cursor,
    rest: usize,
    min: u32,
) -> Result<Cursor, Refused>
    requires { c.at ≤ token_count tokens.now }
    ensures { Gives (operand_of text.now tokens.now rest min c rows.old) result rows.new }
{
    let k = kind_at(tokens, c.at);
    let precedence = operators::prefix_precedence(k);
    if !operators::binds(precedence, min) {
        return atom(text, tokens, rows, c, rest);
    }
    let d = expression(&*text, &*tokens, rows, c.past(1), rest, precedence)?;
    push_over_last(rows, d, operators::prefix_row(k), 0)
}

// Reads an atom, by what its token starts.
#[cycle(reading)]
#[tactic(auto, unfolding(grammar::specs::Memory::atom))]
fn atom(
    text: &[u8],
    tokens: &[u32],
    rows: &mut [u64],
    c: Cursor,
    rest: usize,
) -> Result<Cursor, Refused>
    requires { c.at ≤ token_count tokens.now }
    ensures { Gives (atom_of text.now tokens.now rest c rows.old) result rows.new }
{
    match start_of(kind_at(tokens, c.at)) {
        Start::Nothing => Err(Refusal::End.at(c.at)),
        Start::Number => numeral(&*text, &*tokens, rows, c),
        Start::Text => push_leaf(rows, c, row::STRING, c.at as u64),
        Start::Name => named(text, tokens, rows, c, rest),
        Start::Paren => group(text, tokens, rows, c, rest),
        Start::Plain(kind, x) => push_leaf(rows, c, kind, x),
        Start::Other => Err(Refusal::NoAtom.at(c.at)),
    }
}

// Reads an expression in parentheses.
#[cycle(reading)]
#[tactic(auto, using(grammar::proofs::Answers::goes_on), unfolding(grammar::specs::Memory::group))]
fn group(
    text: &[u8],
    tokens: &[u32],
    rows: &mut [u64],
    c: Cursor,
    rest: usize,
) -> Result<Cursor, Refused>
    requires { c.at < token_count tokens.now }
    ensures { Gives (group_of text.now tokens.now rest c rows.old) result rows.new }
{
    let d = expression(&*text, &*tokens, rows, c.past(1), rest, 0)?;
    need(tokens, d, kind::CLOSE_PAREN, Refusal::NeedClose)
}

// Reads a name: a function, where a parenthesis opens after it, else a column.
#[cycle(reading)]
#[tactic(auto, unfolding(grammar::specs::Memory::named))]
fn named(
    text: &[u8],
    tokens: &[u32],
    rows: &mut [u64],
    c: Cursor,
    rest: usize,
) -> Result<Cursor, Refused>
    requires { c.at < token_count tokens.now }
    ensures { Gives (named_of text.now tokens.now rest c rows.old) result rows.new }
{
    if kind_at(tokens, c.at + 1) != kind::OPEN_PAREN {
        return column(tokens, rows, c);
    }
    arguments(text, tokens, rows, c.past(2), rest, c.at)
}

// Reads the arguments of the function that token `name` names, up to the closing parenthesis, and writes the function's row.
// The loop goes by the cursor; `n` only counts its turns, so there is no range or slice for a `for`.
#[cycle(reading)]
#[tactic(auto, using(grammar::proofs::RuleCases::arguments_cases))]
fn arguments(
    text: &[u8],
    tokens: &[u32],
    rows: &mut [u64],
    start: Cursor,
    rest: usize,
    name: usize,
) -> Result<Cursor, Refused>
    requires { start.at ≤ token_count tokens.now }
    ensures { Gives (arguments_of text.now tokens.now rest name start rows.old) result rows.new }
{
    let mut c = start;
    let mut n = 0usize;
    while kind_at(tokens, c.at) != kind::CLOSE_PAREN {
        c = argument(text, tokens, rows, c, rest, n)?;
        n += 1;
    }
    push_row(
        rows,
        c.past(1),
        Row {
            kind: row::FUNCTION,
            x: name as u64,
            y: n as u64,
        },
    )
}

// Reads an argument, after a comma if it is not the first.
#[cycle(reading)]
#[tactic(auto, using(grammar::proofs::Answers::goes_on), unfolding(grammar::specs::Memory::argument))]
fn argument(
    text: &[u8],
    tokens: &[u32],
    rows: &mut [u64],
    c: Cursor,
    rest: usize,
    n: usize,
) -> Result<Cursor, Refused>
    requires { c.at ≤ token_count tokens.now }
    ensures { Gives (argument_of text.now tokens.now rest n c rows.old) result rows.new }
{
    if n == 0 {
        return expression(&*text, &*tokens, rows, c, rest, 0);
    }
    let d = need(tokens, c, kind::COMMA, Refusal::NeedComma)?;
    expression(&*text, &*tokens, rows, d, rest, 0)
}

// Reads the infix operators of at least `min` with their right sides, while there are any. `postfixes` has the same loop over another step: one function for
// both would be lent two closures, and its callers would be longer than this.
#[cycle(reading)]
#[tactic(auto, using(grammar::proofs::RuleCases::loop_cases), unfolding(grammar::specs::Memory::infixes))]
fn infixes(
    text: &[u8],
    tokens: &[u32],
    rows: &mut [u64],
    start: Cursor,
    rest: usize,
    min: u32,
) -> Result<Cursor, Refused>
    requires { (start.at ≤ token_count tokens.now) × (0 < start.rows) }
    ensures { Gives (infixes_of text.now tokens.now rest min start rows.old) result rows.new }
{
    let mut c = start;
    while infix_at(tokens, c.at, min) {
        c = infixed(text, tokens, rows, c, rest)?;
    }
    Ok(c)
}

// Tells if the token at `at` is an infix operator of at least `min`.
fn infix_at(tokens: &[u32], at: usize, min: u32) -> bool
    ensures { result ≡ binds (infix_of (kind_at tokens.now at)).precedence min }
{
    operators::binds(operators::infix_precedence(kind_at(tokens, at)), min)
}

// Reads an infix operator, after its left side, with its right side.
#[cycle(reading)]
#[tactic(auto, using(grammar::proofs::Answers::goes_on), unfolding(grammar::specs::Memory::infixed))]
fn infixed(
    text: &[u8],
    tokens: &[u32],
    rows: &mut [u64],
    c: Cursor,
    rest: usize,
) -> Result<Cursor, Refused>
    requires { (c.at < token_count tokens.now) × (0 < c.rows) }
    ensures { Gives (infixed_of text.now tokens.now rest c rows.old) result rows.new }
{
    let k = kind_at(tokens, c.at);
    let left = c.rows - 1;
    let end = right_side(
        text,
        tokens,
        rows,
        c.past(1),
        rest,
        operators::right_minimum(k),
    )?;
    let right = end.rows - 1;
    push_row(
        rows,
        end,
        Row {
            kind: operators::infix_row(k),
            x: left as u64,
            y: right as u64,
        },
    )
}

// Reads a right side, at the minimum `min`. Most often it is one token, and then takes no call.
#[cycle(reading)]
fn right_side(
    text: &[u8],
    tokens: &[u32],
    rows: &mut [u64],
    c: Cursor,
    levels: usize,
    min: u32,
) -> Result<Cursor, Refused>
    requires { c.at ≤ token_count tokens.now }
    ensures { Gives (expression_of text.now tokens.now levels min c rows.old) result rows.new }
{
    if single_token_operand(tokens, c.at, levels, min) {
        return single_token(text, tokens, rows, c);
    }
    expression(&*text, &*tokens, rows, c, levels, min)
}

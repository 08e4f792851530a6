// Predicates, as rows that a caller lends: which rows are a predicate, and what each row is.
//
// Rows stand in post-order, three numbers each: kind, x and y. One pass over them says whether they are one whole tree, and keeps no table:
// a row's left side is found by going from its right side down to the first row of that.
// docs/FORMAT.md has the rules; specs/ has them as definitions.
#![tactic(auto)]

use limits::{COLUMN_MAX, ROWS_MAX, TEXT_MAX};
use refusals::{Refusal, Refused};
use rows::Row;

pub mod kind;

ghost use Rattle.std.specs.Prelude.{◌≡◌, [], ℕ, ◌+◌, ◌<◌, length, leb};
ghost use Rattle.rows.specs.Layout.{row_count};
ghost use Rattle.predicate.specs.Row.{class_of, allowed_of, shape_of, shape_at, arity_of};
ghost use Rattle.predicate.specs.Tree.{first_at, Sound};
ghost use Rattle.predicate.specs.Check.{SoundBefore, operands_precede, good_at};
ghost use Rattle.predicate.specs.Read.{read_from, checked_of, Checks};

// What a kind asks of its row. `Unknown` stays a class: as an Option of a class, each match on one and each law of it would have a level more.
#[derive(Clone, Copy)]
pub enum Class {
    Unknown,
    Null,
    Boolean,
    Number,
    Text,
    Column,
    And,
    Or,
    Not,
    Is,
    Unary,
    Binary,
}

// What a row is to a splitter, with its operands' rows: AND, OR and NOT, or part of an atom.
#[derive(Clone, Copy)]
pub enum Shape {
    Leaf,
    One(usize),
    Two(usize, usize),
    Both(usize, usize),
    Either(usize, usize),
    Not(usize),
}

// A row's operands.
#[derive(Clone, Copy)]
pub enum Arity {
    Nil,
    One(usize),
    Two(usize, usize),
}

// Answers what a kind asks of its row. One arm for each kind: with or-patterns a check of rows took up to a fifth longer.
#[tactic(auto, unfolding(crate::specs::Row::class_of, crate::specs::Row::class_in, crate::specs::Row::classes, crate::specs::Row::is_one_of))]
fn class_of(kind: u64) -> Class
    ensures { result ≡ class_of kind }
{
    match kind {
        kind::NULL => Class::Null,
        kind::BOOLEAN => Class::Boolean,
        kind::INTEGER => Class::Number,
        kind::FLOAT => Class::Number,
        kind::STRING => Class::Text,
        kind::COLUMN => Class::Column,
        kind::AND => Class::And,
        kind::OR => Class::Or,
        kind::NOT => Class::Not,
        kind::EQUAL => Class::Binary,
        kind::GREATER_THAN => Class::Binary,
        kind::LESS_THAN => Class::Binary,
        kind::IS => Class::Is,
        kind::ADD => Class::Binary,
        kind::DIVIDE => Class::Binary,
        kind::EXPONENTIATE => Class::Binary,
        kind::FACTORIAL => Class::Unary,
        kind::IDENTITY => Class::Unary,
        kind::MULTIPLY => Class::Binary,
        kind::NEGATE => Class::Unary,
        kind::REMAINDER => Class::Binary,
        kind::SQUARE_ROOT => Class::Unary,
        kind::SUBTRACT => Class::Binary,
        kind::LIKE => Class::Binary,
        _ => Class::Unknown,
    }
}

// Tells if a string lies in the text. No sum is formed that could wrap.
fn lies_within(text: &[u8], start: u64, size: u64) -> bool
    ensures { result ≡ leb (start + size) (length text.now) }
{
    let all = text.len() as u64;
    start <= all && size <= all - start
}

// Tells if a row of this class may have these numbers.
#[tactic(auto, unfolding(crate::specs::Row::allowed_of))]
fn allowed(text: &[u8], class: Class, x: u64, y: u64) -> bool
    ensures { result ≡ allowed_of text.now class x y }
{
    match class {
        Class::Unknown => false,
        Class::Null => x == 0 && y == 0,
        Class::Boolean => x <= 1 && y == 0,
        Class::Text => lies_within(text, x, y),
        Class::Column => x <= COLUMN_MAX && y == 0,
        Class::Is => y <= 1,
        Class::Number | Class::Not | Class::Unary => y == 0,
        Class::And | Class::Or | Class::Binary => true,
    }
}

// Answers what a row of this class is to a splitter.
#[tactic(auto, unfolding(crate::specs::Row::shape_of))]
fn shape_of(class: Class, row: Row) -> Shape
    ensures { result ≡ shape_of class row }
{
    let x = row.x as usize;
    let y = row.y as usize;
    match class {
        Class::Unknown
        | Class::Null
        | Class::Boolean
        | Class::Number
        | Class::Text
        | Class::Column => Shape::Leaf,
        Class::And => Shape::Both(x, y),
        Class::Or => Shape::Either(x, y),
        Class::Not => Shape::Not(x),
        Class::Is | Class::Unary => Shape::One(x),
        Class::Binary => Shape::Two(x, y),
    }
}

// Answers what row r is to a splitter.
#[tactic(auto, unfolding(crate::specs::Row::shape_at))]
pub fn shape_at(rows: &[u64], r: usize) -> Shape
    requires { r < row_count rows.now }
    ensures { result ≡ shape_at rows.now r }
{
    let row = rows::row_at(rows, r);
    shape_of(class_of(row.kind), row)
}

// Answers the rows of a row's operands.
#[tactic(auto, unfolding(crate::specs::Row::arity_of))]
fn operands(s: Shape) -> Arity
    ensures { result ≡ arity_of s }
{
    match s {
        Shape::Leaf => Arity::Nil,
        Shape::One(x) | Shape::Not(x) => Arity::One(x),
        Shape::Two(x, y) | Shape::Both(x, y) | Shape::Either(x, y) => Arity::Two(x, y),
    }
}

// Finds the first row of the subtree at row r. It follows first operands, so no counted loop would do.
// `Sound` stays a `requires`: as a ghost field of a struct of rows and root it proves, but each clause then says `t.entry.rows.now` and `t.entry.root`.
#[tactic(auto, using(crate::proofs::Trees::first_named, crate::proofs::Trees::first_turn))]
fn first_of(rows: &[u64], r: usize) -> usize
    requires { Sound rows.now r }
    ensures { result ≡ first_at rows.now r }
{
    let mut q = r;
    while let Arity::One(x) | Arity::Two(x, _) = operands(shape_at(rows, q)) {
        q = x;
    }
    q
}

// Tells if the whole subtrees of its operands stand directly before row r. An operand is held against r before one is added to it, so that no sum wraps;
// `checked_add` was tried in its place, and the check of rows took up to a fifth longer.
#[tactic(auto, unfolding(crate::specs::Check::operands_precede))]
fn operands_precede(rows: &[u64], r: usize, a: Arity) -> bool
    requires { SoundBefore rows.now r }
    ensures { result ≡ operands_precede rows.now r a }
{
    match a {
        Arity::Nil => true,
        Arity::One(x) => x < r && x + 1 == r,
        Arity::Two(x, y) => {
            if y < r && y + 1 == r {
                let first = first_of(rows, y);
                return x < first && x + 1 == first;
            }
            false
        }
    }
}

// Tells if row r may stand after the rows before it.
#[tactic(auto, unfolding(crate::specs::Check::good_at, crate::specs::Row::shape_at))]
fn good_at(text: &[u8], rows: &[u64], r: usize) -> bool
    requires { SoundBefore rows.now r }
    ensures { result ≡ good_at text.now rows.now r }
{
    let row = rows::row_at(rows, r);
    let class = class_of(row.kind);
    allowed(text, class, row.x, row.y) && operands_precede(rows, r, operands(shape_of(class, row)))
}

// Checks each row in turn, up to the first that is not good; then that there is one root.
#[tactic(auto, using(crate::proofs::CheckLoop::row_steps))]
fn check_rows(text: &[u8], rows: &[u64]) -> Result<usize, Refused>
    ensures { result ≡ checked_of (read_from text.now rows.now (row_count rows.now) 0 []) }
{
    let whole = rows::count(rows);
    for r in 0..whole {
        if !good_at(text, rows, r) {
            return Err(Refusal::BadTree.at(r));
        }
    }
    let Some(last) = whole.checked_sub(1) else {
        return Err(Refusal::BadTree.at(0));
    };
    let first = first_of(rows, last);
    if first == 0 {
        Ok(last)
    } else {
        Err(Refusal::BadTree.at(last))
    }
}

// Checks that the rows are a predicate over the text. Then they are the tree at the row that is answered: the root's, which is the last.
#[tactic(auto, using(crate::proofs::Accepted::checks), unfolding(crate::specs::Read::checked_of, crate::specs::Read::read_rows))]
pub fn check(text: &[u8], rows: &[u64]) -> Result<usize, Refused>
    ensures { Checks text.now rows.now result }
{
    let whole = rows::count(rows);
    if TEXT_MAX < text.len() || ROWS_MAX < whole {
        return Err(Refusal::TooLong.at(0));
    }
    if !rows::only_whole(rows) {
        return Err(Refusal::BadTree.at(whole));
    }
    check_rows(text, rows)
}

// The clauses of a predicate: which they are, what they mean, and how many.
//
// Where the clauses of a row come from is said of one row at a time, and they are counted without listing one.
// docs/FORMAT.md has the rules; specs/ has them as definitions.
#![tactic(auto)]

ghost use Rattle.std.specs.Prelude.{◌≡◌, List};
ghost use Rattle.predicate.specs.Tree.{Sound};
ghost use Rattle.cnf.specs.Clause.{Literal, join};
ghost use Rattle.cnf.specs.Size.{within_limits, join_sizes, size_of, Limited, SizeOfSome};
ghost use Rattle.cnf.specs.Source.{joined, clauses_at, source_at};

use limits::{CLAUSES_MAX, LITERALS_MAX};
use predicate::Shape;

// The size of an atom's list: one clause of one literal.
const ONE_LITERAL: Size = Size {
    clauses: 1,
    literals: 1,
};

// How many clauses and literals a list has.
#[derive(Clone, Copy)]
pub struct Size {
    pub clauses: u32,
    pub literals: u32,
}

// A row, read plainly or negated. Callers write a plain one out: were it made by a function, seven answers would first rewrite by what that answers.
#[derive(Clone, Copy)]
pub struct SignedRow {
    pub row: usize,
    pub negated: bool,
}

// Where the clauses of a row come from: an atom's row; or a left and a right row, both read alike, whose lists are joined crosswise (each clause with each)
// or one after the other. `crosswise` stays a bool, as in `join` of specs/Clause: it is the reading itself for AND, and the other one for OR.
#[derive(Clone, Copy)]
pub enum Source {
    Atom(SignedRow),
    Joined {
        left: SignedRow,
        right: SignedRow,
        crosswise: bool,
    },
}

impl SignedRow {
    // Answers the lists of two rows joined, both read as this row is.
    fn joined(self, left: usize, right: usize, crosswise: bool) -> Source
        ensures { result ≡ joined self.negated left right crosswise }
    {
        let negated = self.negated;
        Source::Joined {
            left: SignedRow { row: left, negated },
            right: SignedRow {
                row: right,
                negated,
            },
            crosswise,
        }
    }
}

// Follows NOTs to the first row that is none. It goes by operands, so no counted loop would do.
#[tactic(auto, using(crate::proofs::Sources::source_step), unfolding(crate::specs::Source::source_of))]
pub fn past_nots(rows: &[u64], start: SignedRow) -> Source
    requires { Sound rows.now start.row }
    ensures { result ≡ source_at rows.now start }
{
    let mut at = start;
    loop {
        match predicate::shape_at(rows, at.row) {
            Shape::Leaf | Shape::One(_) | Shape::Two(_, _) => {
                return Source::Atom(at);
            }
            Shape::Both(x, y) => {
                return at.joined(x, y, at.negated);
            }
            Shape::Either(x, y) => {
                return at.joined(x, y, !at.negated);
            }
            Shape::Not(x) => {
                at = SignedRow {
                    row: x,
                    negated: !at.negated,
                };
            }
        }
    }
}

// Answers so many clauses with so many literals in all, or that these are too many.
#[tactic(auto, unfolding(crate::specs::Size::within_limits))]
fn within_limits(clauses: u32, literals: u32) -> Option<Size>
    ensures { result ≡ within_limits clauses literals }
{
    if clauses <= CLAUSES_MAX && literals <= LITERALS_MAX {
        Some(Size { clauses, literals })
    } else {
        None
    }
}

// Answers the size of two lists joined, from their sizes.
#[tactic(auto, unfolding(crate::specs::Size::join_sizes))]
pub fn join_sizes(crosswise: bool, a: Option<Size>, b: Option<Size>) -> Option<Size>
    requires { Limited a × Limited b }
    ensures { result ≡ join_sizes crosswise a b }
{
    let a = a?;
    let b = b?;
    if crosswise {
        within_limits(
            a.clauses * b.clauses,
            a.literals * b.clauses + b.literals * a.clauses,
        )
    } else {
        within_limits(a.clauses + b.clauses, a.literals + b.literals)
    }
}

// Counts the clauses of a row, read plainly or negated, and their literals.
#[cycle(count_clauses_count_left_spine)]
#[tactic(auto, using(crate::proofs::Counting::count_steps))]
pub fn count_clauses(rows: &[u64], at: SignedRow) -> Option<Size>
    requires { Sound rows.now at.row }
    ensures { result ≡ size_of (clauses_at rows.now at) }
{
    match past_nots(rows, at) {
        Source::Atom(_) => Some(ONE_LITERAL),
        Source::Joined {
            left,
            right,
            crosswise,
        } => {
            let last = count_clauses(rows, right);
            count_left_spine(rows, left, crosswise, last)
        }
    }
}

// Counts those of a row joined with a list of size `last`. Left sides that are joined the same way are counted in the next turn, so that a long AND
// or OR is no deep nesting. It goes by operands, so no counted loop would do.
#[cycle(count_clauses_count_left_spine)]
#[tactic(auto, using(crate::proofs::Counting::count_steps))]
fn count_left_spine(
    rows: &[u64],
    root: SignedRow,
    crosswise: bool,
    last: Option<Size>,
) -> Option<Size>
    requires { Sound rows.now root.row × Limited last }
    ensures { (cs : List (List Literal)) → SizeOfSome last cs
        → result ≡ size_of (join crosswise (clauses_at rows.now root) cs) }
{
    let mut at = root;
    let mut size = last;
    loop {
        match past_nots(rows, at) {
            Source::Atom(_) => {
                return join_sizes(crosswise, Some(ONE_LITERAL), size);
            }
            Source::Joined {
                left,
                right,
                crosswise: joined_crosswise,
            } if joined_crosswise == crosswise => {
                let same = count_clauses(rows, right);
                size = join_sizes(crosswise, same, size);
                at = left;
            }
            Source::Joined { .. } => {
                let other = count_clauses(rows, at);
                return join_sizes(crosswise, other, size);
            }
        }
    }
}

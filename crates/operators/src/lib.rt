// Operators by the kind of their token: how tightly each binds, and which row it is.
//
// docs/FORMAT.md has the precedences; specs/Operator has them as tables.
#![tactic(auto)]

ghost use Rattle.std.specs.Prelude.{◌≡◌};
ghost use Rattle.operators.specs.Operator.{infix_of, right_minimum, prefix_of, postfix_of, binds as binds_of};

use syntax::kind as row;
use tokens::kind;

// Answers the precedence of an infix operator, and 0 for any other kind: a number and no Option, since `infix_of` of specs/ has 0 there, and this promise and
// its callers stay word for word when a quicker look-up takes the place of this body. The compiler makes shorter code of these tests than of a `match`,
// and of one test for each kind than of kinds joined: joined, a filter took a twentieth longer.
#[tactic(auto, unfolding(crate::specs::Operator::infix_of, crate::specs::Operator::among))]
pub fn infix_precedence(k: u32) -> u32
    ensures { result ≡ (infix_of k).precedence }
{
    if k == kind::OR {
        1
    } else if k == kind::AND {
        2
    } else if k == kind::EQUAL {
        4
    } else if k == kind::NOT_EQUAL {
        4
    } else if k == kind::LESS_OR_GREATER_THAN {
        4
    } else if k == kind::LIKE {
        4
    } else if k == kind::GREATER_THAN {
        5
    } else if k == kind::GREATER_THAN_OR_EQUAL {
        5
    } else if k == kind::LESS_THAN {
        5
    } else if k == kind::LESS_THAN_OR_EQUAL {
        5
    } else if k == kind::PLUS {
        6
    } else if k == kind::MINUS {
        6
    } else if k == kind::ASTERISK {
        7
    } else if k == kind::SLASH {
        7
    } else if k == kind::PERCENT {
        7
    } else if k == kind::CARET {
        8
    } else {
        0
    }
}

// Answers the minimum for what stands to the right of an infix operator: one more than its precedence, but for `^` its own.
#[tactic(auto, using(crate::proofs::Among::infix_precedence_at_most_8), unfolding(crate::specs::Operator::right_minimum))]
pub fn right_minimum(k: u32) -> u32
    ensures { result ≡ right_minimum k }
{
    let precedence = infix_precedence(k);
    if k == kind::CARET {
        precedence
    } else {
        precedence + 1
    }
}

// Answers the kind of an infix operator's row, and 0 for any other kind. An Option would be no plainer: who calls has seen an operator, and would
// have a None to answer for that never comes.
#[tactic(auto, unfolding(crate::specs::Operator::infix_of, crate::specs::Operator::among))]
pub fn infix_row(k: u32) -> u64
    ensures { result ≡ (infix_of k).row }
{
    match k {
        kind::OR => row::OR,
        kind::AND => row::AND,
        kind::EQUAL => row::EQUAL,
        kind::NOT_EQUAL => row::NOT_EQUAL,
        kind::LESS_OR_GREATER_THAN => row::NOT_EQUAL,
        kind::LIKE => row::LIKE,
        kind::GREATER_THAN => row::GREATER_THAN,
        kind::GREATER_THAN_OR_EQUAL => row::GREATER_THAN_OR_EQUAL,
        kind::LESS_THAN => row::LESS_THAN,
        kind::LESS_THAN_OR_EQUAL => row::LESS_THAN_OR_EQUAL,
        kind::PLUS => row::ADD,
        kind::MINUS => row::SUBTRACT,
        kind::ASTERISK => row::MULTIPLY,
        kind::SLASH => row::DIVIDE,
        kind::PERCENT => row::REMAINDER,
        kind::CARET => row::EXPONENTIATE,
        _ => 0,
    }
}

// Answers the precedence of a prefix operator, and 0 for any other kind, as `prefix_of` of specs/ has it.
#[tactic(auto, unfolding(crate::specs::Operator::prefix_of, crate::specs::Operator::among))]
pub fn prefix_precedence(k: u32) -> u32
    ensures { result ≡ (prefix_of k).precedence }
{
    match k {
        kind::PLUS => 10,
        kind::MINUS => 10,
        kind::NOT => 3,
        _ => 0,
    }
}

// Answers the kind of a prefix operator's row, and 0 for any other kind, as `prefix_of` of specs/ has it.
#[tactic(auto, unfolding(crate::specs::Operator::prefix_of, crate::specs::Operator::among))]
pub fn prefix_row(k: u32) -> u64
    ensures { result ≡ (prefix_of k).row }
{
    match k {
        kind::PLUS => row::IDENTITY,
        kind::MINUS => row::NEGATE,
        kind::NOT => row::NOT,
        _ => 0,
    }
}

// Answers the precedence of a postfix operator, and 0 for any other kind, as `postfix_of` of specs/ has it.
#[tactic(auto, unfolding(crate::specs::Operator::postfix_of, crate::specs::Operator::among))]
pub fn postfix_precedence(k: u32) -> u32
    ensures { result ≡ postfix_of k }
{
    match k {
        kind::EXCLAMATION => 9,
        kind::IS => 4,
        _ => 0,
    }
}

// Tells if this is the precedence of an operator, and at least the minimum.
#[tactic(auto, unfolding(crate::specs::Operator::binds))]
pub fn binds(precedence: u32, min: u32) -> bool
    ensures { result ≡ binds_of precedence min }
{
    0 < precedence && min <= precedence
}

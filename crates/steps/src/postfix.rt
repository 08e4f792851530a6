// Postfix operators.
ghost use Rattle.std.specs.Prelude.{◌≡◌, ◌≤◌, ◌<◌};
ghost use Rattle.tokens.specs.Token.{token_count, kind_at};
ghost use Rattle.operators.specs.Operator.{postfix_of, binds};
ghost use Rattle.grammar.specs.Memory.{Gives, null_or_nan as null_or_nan_of, postfix as postfix_on, postfixes as postfixes_of};

use crate::push::push_over_last;
use crate::token::need;
use grammar::Cursor;
use refusals::{Refusal, Refused};
use syntax::kind as row;
use tokens::kind;
use tokens::table::kind_at;

// Reads NULL or NAN, after IS.
#[tactic(auto, using(grammar::proofs::Answers::goes_on), unfolding(grammar::specs::Memory::null_or_nan))]
fn null_or_nan(tokens: &[u32], rows: &mut [u64], c: Cursor) -> Result<Cursor, Refused>
    requires { 0 < c.rows }
    ensures { Gives (null_or_nan_of tokens.now c rows.old) result rows.new }
{
    if kind_at(tokens, c.at) == kind::NULL {
        return push_over_last(rows, c.past(1), row::IS, 0);
    }
    let d = need(tokens, c, kind::NAN, Refusal::NeedNullOrNan)?;
    push_over_last(rows, d, row::IS, 1)
}

// Reads one postfix operator: `!`, or IS and perhaps NOT.
#[tactic(auto, using(grammar::proofs::Answers::goes_on), unfolding(grammar::specs::Memory::postfix))]
fn postfix(tokens: &[u32], rows: &mut [u64], c: Cursor) -> Result<Cursor, Refused>
    requires { (c.at < token_count tokens.now) × (0 < c.rows) }
    ensures { Gives (postfix_on tokens.now c rows.old) result rows.new }
{
    if kind_at(tokens, c.at) == kind::EXCLAMATION {
        return push_over_last(rows, c.past(1), row::FACTORIAL, 0);
    }
    if kind_at(tokens, c.at + 1) != kind::NOT {
        return null_or_nan(tokens, rows, c.past(1));
    }
    let d = null_or_nan(tokens, rows, c.past(2))?;
    push_over_last(rows, d, row::NOT, 0)
}

// Tells if the token at `at` is a postfix operator of at least `min`.
pub fn postfix_at(tokens: &[u32], at: usize, min: u32) -> bool
    ensures { result ≡ binds (postfix_of (kind_at tokens.now at)) min }
{
    operators::binds(operators::postfix_precedence(kind_at(tokens, at)), min)
}

// Reads the postfix operators of at least `min`, while there are any. It goes by a cursor, as `infixes` of `reader` does, which says why these are two.
#[tactic(auto, using(grammar::proofs::RuleCases::loop_cases), unfolding(grammar::specs::Memory::postfixes))]
pub fn postfixes(
    tokens: &[u32],
    rows: &mut [u64],
    start: Cursor,
    min: u32,
) -> Result<Cursor, Refused>
    requires { (start.at ≤ token_count tokens.now) × (0 < start.rows) }
    ensures { Gives (postfixes_of tokens.now min start rows.old) result rows.new }
{
    let mut c = start;
    while postfix_at(tokens, c.at, min) {
        c = postfix(tokens, rows, c)?;
    }
    Ok(c)
}

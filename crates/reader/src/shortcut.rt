// Shortcuts: each saves a call and answers what the general way answers. Each is worth a tenth of the time that a short
// filter takes; docs/PERFORMANCE.md says how fast they are.
ghost use Rattle.std.specs.Prelude.{◌≡◌, ◌≤◌, ◌<◌};
ghost use Rattle.tokens.specs.Token.{token_count, spelled};
ghost use Rattle.numbers.specs.Number.{number_of};
ghost use Rattle.grammar.specs.Memory.{Gives, postfixes as postfixes_of, numeral as numeral_of};
ghost use Rattle.reader.specs.Shortcut.{may_follow_operand, starts_leaf, single_token_operand, single_token};

use grammar::Cursor;
use refusals::Refused;
use steps::atom::numeral;
use steps::postfix::{postfix_at, postfixes};
use steps::push::push_leaf;
use syntax::kind as row;
use tokens::table::kind_at;
use tokens::{kind, table};

// Reads postfix operators where there are most often none: one look, and a call only where there is one. The cursor is put together anew, so that it
// stays out of memory.
#[tactic(auto, using(grammar::proofs::Loops::while_off), unfolding(grammar::specs::Memory::postfixes))]
pub fn any_postfixes(
    tokens: &[u32],
    rows: &mut [u64],
    c: Cursor,
    min: u32,
) -> Result<Cursor, Refused>
    requires { (c.at ≤ token_count tokens.now) × (0 < c.rows) }
    ensures { Gives (postfixes_of tokens.now min c rows.old) result rows.new }
{
    let at = c.at;
    let n = c.rows;
    if !postfix_at(tokens, at, min) {
        return Ok(Cursor { at, rows: n });
    }
    postfixes(&*tokens, rows, Cursor { at, rows: n }, min)
}

// Tells if a token of this kind may follow an operand of one token and be read with it, at the minimum `min`.
#[tactic(auto, unfolding(crate::specs::Shortcut::may_follow_operand))]
fn may_follow_operand(k: u32, min: u32) -> bool
    ensures { result ≡ may_follow_operand k min }
{
    k == kind::OPEN_PAREN
        || k == kind::PERIOD
        || operators::binds(operators::infix_precedence(k), min)
        || operators::binds(operators::postfix_precedence(k), min)
}

// Tells if a token of this kind starts a leaf: a number, a string or a name.
#[tactic(auto, unfolding(crate::specs::Shortcut::starts_leaf))]
fn starts_leaf(k: u32) -> bool
    ensures { result ≡ starts_leaf k }
{
    matches!(k, kind::NUMBER | kind::STRING | kind::IDENT)
}

// Tells if the operand at token `at` is that token alone, and if there is a level for it.
#[tactic(auto, unfolding(crate::specs::Shortcut::single_token_operand))]
pub fn single_token_operand(tokens: &[u32], at: usize, levels: usize, min: u32) -> bool
    requires { at ≤ token_count tokens.now }
    ensures { result ≡ single_token_operand tokens.now levels min at }
{
    0 < levels
        && starts_leaf(kind_at(tokens, at))
        && !may_follow_operand(kind_at(tokens, at + 1), min)
}

// Reads a number: by one loop where it is an Integer of digits only, else by the general way.
#[tactic(auto, unfolding(grammar::specs::Memory::numeral))]
fn digits_only_numeral(
    text: &[u8],
    tokens: &[u32],
    rows: &mut [u64],
    c: Cursor,
) -> Result<Cursor, Refused>
    requires { c.at < token_count tokens.now }
    ensures { Gives (numeral_of (number_of (spelled text.now tokens.now c.at)) c rows.old) result rows.new }
{
    match numbers::digits_only(table::spelled(text, tokens, c.at)) {
        Some(n) => push_leaf(rows, c, row::INTEGER, n),
        None => numeral(&*text, &*tokens, rows, c),
    }
}

// Reads an operand that is one token alone.
#[tactic(auto, unfolding(crate::specs::Shortcut::single_token))]
pub fn single_token(
    text: &[u8],
    tokens: &[u32],
    rows: &mut [u64],
    c: Cursor,
) -> Result<Cursor, Refused>
    requires { c.at < token_count tokens.now }
    ensures { Gives (single_token tokens.now text.now c rows.old) result rows.new }
{
    match kind_at(tokens, c.at) {
        kind::NUMBER => digits_only_numeral(text, tokens, rows, c),
        kind::STRING => push_leaf(rows, c, row::STRING, c.at as u64),
        _ => push_leaf(rows, c, row::COLUMN, c.at as u64),
    }
}

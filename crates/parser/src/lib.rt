// Whole expressions: a table of tokens is checked and read by the reader as one expression, and what is refused leaves a table of zeros.
// docs/FORMAT.md has the rules; specs/Promise has what `parse` promises, over the trees of grammar/specs/Rules.
#![tactic(auto)]

ghost use Rattle.limits.specs.Limits.{levels_max};
ghost use Rattle.grammar.specs.Memory.{Gives, whole_expression};
ghost use Rattle.parser.specs.Inner.{parsing_out};
ghost use Rattle.parser.specs.Promise.{Parses};

use grammar::Cursor;
use limits::LEVELS_MAX;
use refusals::{Refusal, Refused};
use tokens::table;

// Reads all tokens as one expression.
#[tactic(auto, using(grammar::proofs::Answers::goes_on), unfolding(grammar::specs::Memory::whole_expression, grammar::specs::Memory::finish))]
fn whole_expression(
    text: &[u8],
    tokens: &[u32],
    rows: &mut [u64],
    levels: usize,
) -> Result<Cursor, Refused>
    ensures { Gives (whole_expression text.now tokens.now levels rows.old) result rows.new }
{
    let start = Cursor { at: 0, rows: 0 };
    let c = reader::expression(text, tokens, rows, start, levels, 0)?;
    if c.at < table::count(tokens) {
        return Err(Refusal::LeftOver.at(c.at));
    }
    Ok(c)
}

// Reads all tokens as one expression, if their table is good.
#[tactic(auto, unfolding(crate::specs::Inner::parsing_out))]
fn checked_expression(
    text: &[u8],
    tokens: &[u32],
    rows: &mut [u64],
    levels: usize,
) -> Result<Cursor, Refused>
    ensures { Gives (parsing_out text.now tokens.now levels rows.old) result rows.new }
{
    table::check_table(text, tokens)?;
    whole_expression(text, tokens, rows, levels)
}

// Reads the tokens into the rows of a tree, with so many levels at most; answers how many rows it wrote.
pub fn parse_within(
    text: &[u8],
    tokens: &[u32],
    rows: &mut [u64],
    levels: usize,
) -> Result<usize, Refused>
    ensures { Parses levels text.now tokens.now rows.old result rows.new }
{
    match checked_expression(text, tokens, rows, levels) {
        Ok(c) => Ok(c.rows),
        Err(e) => {
            rows::clear(rows);
            Err(e)
        }
    }
}

// Reads them with the most levels that an expression may have.
pub fn parse(text: &[u8], tokens: &[u32], rows: &mut [u64]) -> Result<usize, Refused>
    ensures { Parses levels_max text.now tokens.now rows.old result rows.new }
{
    parse_within(text, tokens, rows, LEVELS_MAX)
}

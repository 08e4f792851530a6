// Rows, each written after those that are there.
ghost use Rattle.std.specs.Prelude.{◌+◌, ◌^◌, ◌<◌};
ghost use Rattle.rows.specs.Label.{label};
ghost use Rattle.grammar.specs.Memory.{Gives, push_row, push_leaf, push_over_last};

use grammar::Cursor;
use refusals::{Refusal, Refused};
use rows::Row;

// Writes a row that is due after the others, if there is room.
#[tactic(auto, unfolding(grammar::specs::Memory::push_row))]
pub fn push_row(rows: &mut [u64], c: Cursor, row: Row) -> Result<Cursor, Refused>
    ensures { Gives (push_row row c rows.old) result rows.new }
{
    if rows::capacity(rows) <= c.rows {
        return Err(Refusal::NoRoom.at(c.at));
    }
    rows::write_row(rows, c.rows, row);
    Ok(Cursor {
        at: c.at,
        rows: c.rows + 1,
    })
}

// Writes a leaf of one token.
pub fn push_leaf(rows: &mut [u64], c: Cursor, kind: u64, x: u64) -> Result<Cursor, Refused>
    requires { c.at + 1 < 2 ^ 64 }
    ensures { Gives (push_leaf (label kind x 0) c rows.old) result rows.new }
{
    push_row(rows, c.past(1), Row { kind, x, y: 0 })
}

// Writes a row over the last one.
pub fn push_over_last(rows: &mut [u64], c: Cursor, kind: u64, y: u64) -> Result<Cursor, Refused>
    requires { 0 < c.rows }
    ensures { Gives (push_over_last (label kind 0 y) c rows.old) result rows.new }
{
    let x = (c.rows - 1) as u64;
    push_row(rows, c, Row { kind, x, y })
}

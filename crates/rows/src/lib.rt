// How a row of either family lies in its table: how many numbers it has, and the one function that reads a row and the one that writes one.
// What the numbers of a row mean is each family's own. A table stays a slice of numbers: so C lends it.
#![tactic(auto)]

ghost use Rattle.std.specs.Prelude.{◌≡◌, ◌*◌, ◌<◌, length, replicate};
ghost use Rattle.std.proofs.lemmas.List.Edits.{sets};
ghost use Rattle.rows.specs.Layout.{width, numbers, row_count, only_whole, capacity as capacity_of, row_at};

use limits::ROWS_MAX;

// Numbers per row.
pub const WIDTH: usize = 3;

// A row, as its numbers.
#[derive(Clone, Copy)]
pub struct Row {
    pub kind: u64,
    pub x: u64,
    pub y: u64,
}

// Counts the whole rows of a table.
pub fn count(rows: &[u64]) -> usize
    ensures { result ≡ row_count rows.now }
{
    rows.len() / WIDTH
}

// Answers whether a table has no number that is in no whole row.
pub fn only_whole(rows: &[u64]) -> bool
    ensures { result ≡ only_whole rows.now }
{
    rows.len() % WIDTH == 0
}

// Answers how many rows a table takes: its whole rows, up to the maximum.
pub fn capacity(rows: &[u64]) -> usize
    ensures { result ≡ capacity_of rows.now }
{
    count(rows).min(ROWS_MAX)
}

// Reads row n.
pub fn row_at(rows: &[u64], n: usize) -> Row
    requires { n < row_count rows.now }
    ensures { result ≡ row_at rows.now n }
{
    let at = n * WIDTH;
    Row {
        kind: rows[at],
        x: rows[at + 1],
        y: rows[at + 2],
    }
}

// Writes `row` as row n, and nothing else.
pub fn write_row(rows: &mut [u64], n: usize, row: Row)
    requires { n < row_count rows.old }
    ensures { rows.new ≡ sets rows.old (n * width) (numbers row) }
{
    let at = n * WIDTH;
    rows[at] = row.kind;
    rows[at + 1] = row.x;
    rows[at + 2] = row.y;
}

// Sets every number to 0, also those that are in no whole row.
pub fn clear(rows: &mut [u64])
    ensures { rows.new ≡ replicate (length rows.old) 0 }
{
    rows.fill(0);
}

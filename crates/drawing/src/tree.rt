// Trees drawn from their rows, root first, the operands of a row below it and further in.
//
// Rows stand in post-order, so a row's operands are the whole subtrees before it. Where each subtree starts is found first, in one pass; then rows are
// drawn from a stack, on which a drawn row puts its operands, the leftmost on top.
ghost use Rattle.std.specs.Prelude.{◌≤◌, ◌<◌};
ghost use Rattle.limits.specs.Limits.{rows_max};
ghost use Rattle.rows.specs.Layout.{row_count};

use crate::labels::{print_predicate_row, print_syntax_row};
use limits::ROWS_MAX;
use predicate::Shape;
use rows::Row;
use std::io;
use std::io::Write;
use syntax::kind as syntax_kind;

// What the rows are of: an expression, with its tokens, or a predicate.
#[derive(Clone, Copy)]
pub enum Family<'a> {
    Syntax { tokens: &'a [u32] },
    Predicate,
}

// What is drawn: rows, and the text that they are of.
#[derive(Clone, Copy)]
pub struct Drawing<'a> {
    pub family: Family<'a>,
    pub text: &'a [u8],
    pub rows: &'a [u64],
}

// A row that is still to be drawn, and how far in.
#[derive(Clone, Copy)]
struct Pending {
    row: usize,
    depth: usize,
}

// The rows that are still to be drawn, the next one on top. A stack of its own, in fixed memory: nothing here uses a heap.
#[derive(Clone, Copy)]
struct Stack {
    pending: [Pending; ROWS_MAX],
    height: usize,
    ghost fits: { height ≤ rows_max },
}

impl Stack {
    // Puts a row on top, where there is a place for it.
    fn push(&mut self, row: usize, depth: usize) {
        if self.height < ROWS_MAX {
            self.pending[self.height] = Pending { row, depth };
            self.height += 1;
        }
    }

    // Takes the row on top.
    fn pop(&mut self) -> Option<Pending> {
        let top = self.height.checked_sub(1)?;
        self.height = top;
        Some(self.pending[top])
    }
}

// Answers how many operands a syntax row has; none where its kind is unknown.
fn syntax_operands(row: Row) -> usize {
    match row.kind {
        syntax_kind::FUNCTION => row.y as usize,
        syntax_kind::IDENTITY..=syntax_kind::IS => 1,
        syntax_kind::AND..=syntax_kind::EXPONENTIATE => 2,
        _ => 0,
    }
}

// Answers how many operands a predicate row of this shape has.
fn predicate_operands(shape: Shape) -> usize {
    match shape {
        Shape::Leaf => 0,
        Shape::One(_) | Shape::Not(_) => 1,
        Shape::Two(_, _) | Shape::Both(_, _) | Shape::Either(_, _) => 2,
    }
}

// Goes through the roots of the operands of row n, of which there are so many, the rightmost first; answers the first row of the subtree of row n.
fn each_operand<F: FnMut(usize)>(starts: &[usize], n: usize, operands: usize, mut visit: F) -> usize
    requires { F.IsAlwaysCallable visit }
{
    let mut at = n;
    for _ in 0..operands {
        let Some(root) = at.checked_sub(1) else {
            return 0;
        };
        visit(root);
        at = starts.get(root).copied().unwrap_or(0);
    }
    at
}

impl Drawing<'_> {
    // Answers how many operands row n has.
    fn operands(self, n: usize) -> usize
        requires { n < row_count self.rows.now }
    {
        match self.family {
            Family::Syntax { tokens: _ } => syntax_operands(rows::row_at(self.rows, n)),
            Family::Predicate => predicate_operands(predicate::shape_at(self.rows, n)),
        }
    }

    // Writes the first row of each subtree.
    fn find_starts(self, starts: &mut [usize]) {
        for n in 0..rows::count(self.rows) {
            let first = each_operand(starts, n, self.operands(n), |_| {});
            if let Some(start) = starts.get_mut(n) {
                *start = first;
            }
        }
    }

    // Draws a row on its line.
    fn draw_row(self, out: &mut impl Write, row: Row, n: usize, depth: usize) -> io::Result<()> {
        write!(out, "  {n:>4}  ")?;
        for _ in 0..depth {
            write!(out, "  ")?;
        }
        match self.family {
            Family::Syntax { tokens } => print_syntax_row(out, self.text, tokens, row)?,
            Family::Predicate => print_predicate_row(out, self.text, row)?,
        }
        writeln!(out)
    }

    // Draws the rows on the stack and all below them, each once. The loop counts: that no row is put on the stack twice holds of good rows alone, so the
    // height of the stack is no measure, and for rows of any other form the count is what ends it.
    fn draw_rows(
        self,
        out: &mut impl Write,
        starts: &[usize],
        stack: &mut Stack,
    ) -> io::Result<()> {
        let count = rows::count(self.rows);
        for _ in 0..count {
            let Some(Pending { row: n, depth }) = stack.pop() else {
                return Ok(());
            };
            if n < count {
                let row = rows::row_at(self.rows, n);
                self.draw_row(out, row, n, depth)?;
                each_operand(
                    starts,
                    n,
                    self.operands(n),
                    |root| stack.push(root, depth.saturating_add(1)),
                );
            }
        }
        Ok(())
    }

    // Draws the tree of these rows, which are good ones.
    pub fn draw(self, out: &mut impl Write) -> io::Result<()> {
        let Some(root) = rows::count(self.rows).checked_sub(1) else {
            return Ok(());
        };
        // Where the subtree of each row starts: fixed memory, as many places as there may be rows.
        let mut starts = [0usize; ROWS_MAX];
        self.find_starts(&mut starts);
        let none = Pending { row: 0, depth: 0 };
        let mut stack = Stack {
            pending: [none; ROWS_MAX],
            height: 0,
        };
        stack.push(root, 0);
        self.draw_rows(out, &starts, &mut stack)
    }
}

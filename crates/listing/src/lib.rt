// Clauses listed: a clause is a chain of cells, and clauses share the ends of their chains, so that each row is visited once however often its
// clauses are repeated. Then each chain is written out.
#![tactic(auto)]

ghost use Rattle.std.specs.Prelude.{◌≡◌, false, ◌+◌, ◌*◌, ◌<◌, ◌≤◌, length};
ghost use Rattle.limits.specs.Limits.{rows_max};
ghost use Rattle.predicate.specs.Tree.{tree_at, Sound};
ghost use Rattle.cnf.specs.Clause.{bit, clauses};
ghost use Rattle.cnf.specs.Source.{clauses_at};
ghost use Rattle.listing.specs.Chain.{chain_of, free_of, CellsMade, HeadsAt, Followable, Wrote};
ghost use Rattle.listing.specs.Heads.{Prepended, Copied};
ghost use Rattle.listing.specs.Listing.{RoomToPrepend, frontier, ClausesPrepended, RoomToWrite, Written};

use cnf::{SignedRow, Source, past_nots};

// A literal of a clause, and the number of the cell after it in its chain. Cell 0 is no cell of a chain: as `next` it is the end, and its own `next` is the
// number of the next free cell. No `Option`: a cell would be 6 bytes and not 4.
#[derive(Clone, Copy)]
pub struct Cell {
    pub literal: u16,
    pub next: u16,
}

// Where heads stand: the place of the first, and how many there are. No `Range`: it is not Copy, and each clause would subtract to say how many.
#[derive(Clone, Copy)]
pub struct Run {
    pub first: usize,
    pub each: usize,
}

// Answers the number of a literal, which is its atom's row, read plainly or negated: twice the row, plus 1 if negated. No `From`: that could not ask that
// the row is below the most rows.
pub fn literal_number(atom: SignedRow) -> u16
    requires { atom.row < rows_max }
    ensures { result ≡ 2 * atom.row + bit atom.negated }
{
    (2 * atom.row + usize::from(atom.negated)) as u16
}

// Puts a cell with the literal x before each of the chains whose heads these are. By place: of elements that `iter_mut` lent a proof knows nothing after it.
fn prepend(cells: &mut [Cell], heads: &mut [u32], run: Run, x: u16)
    requires { CellsMade cells.old (free_of cells.old)
        × HeadsAt heads.old (free_of cells.old) run.first run.each
        × (free_of cells.old + run.each ≤ length cells.old) }
    ensures { Prepended x cells.old cells.new heads.old heads.new run.first run.each
        (free_of cells.old) (free_of cells.new) }
{
    let mut m = usize::from(cells[0].next);
    for i in run.first..run.first + run.each {
        let h = heads[i];
        cells[m] = Cell {
            literal: x,
            next: h as u16,
        };
        heads[i] = m as u32;
        m += 1;
    }
    cells[0].next = m as u16;
}

// Copies `each` heads from place `from` on to place `to` on. Most often that is one, or none, where lists are joined crosswise: then no call is made.
fn copy_heads(heads: &mut [u32], from: usize, to: usize, each: usize)
    requires { (from + each ≤ length heads.old) × (to + each ≤ length heads.old) }
    ensures { Copied heads.old heads.new from to each }
{
    if each == 1 {
        heads[to] = heads[from];
    } else if each > 1 {
        copy_some(heads, from, to, each);
    }
}

// Copies them. Never inlined: the frames of `prepend_clauses` are as many as the nesting is deep, and have no room for a loop.
#[inline(never)]
fn copy_some(heads: &mut [u32], from: usize, to: usize, each: usize)
    requires { (from + each ≤ length heads.old) × (to + each ≤ length heads.old) }
    ensures { Copied heads.old heads.new from to each }
{
    heads.copy_within(from..from + each, to);
}

// Puts each clause of row `root` before each of the chains whose heads are `start`. The heads of all then end where those ended, and the place of the first
// is answered. Places from `spare` on are free. The clauses of the right one of two operands are prepended by a call, those of the left one in the next
// turn, so that only nesting on the right is deep. The heads that the left one's clauses are put before are kept until then: none where the two lists are
// joined crosswise, since these are then the heads of the right one's.
fn prepend_clauses(
    rows: &[u64],
    cells: &mut [Cell],
    heads: &mut [u32],
    spare: usize,
    start: Run,
    root: SignedRow,
) -> usize
    requires { Sound rows.now root.row × (root.row < rows_max)
        × RoomToPrepend cells.old heads.old spare start.first start.each (free_of cells.old) (clauses_at rows.now root) }
    ensures { ClausesPrepended (clauses_at rows.now root)
        cells.old cells.new heads.old heads.new spare start.first start.each
        (free_of cells.old) (frontier (free_of cells.new) result) }
{
    let mut run = start;
    let mut at = root;
    loop {
        match past_nots(rows, at) {
            Source::Atom(atom) => {
                prepend(cells, heads, run, literal_number(atom));
                return run.first;
            }
            Source::Joined {
                left,
                right,
                crosswise,
            } => {
                let kept = if crosswise { 0 } else { run.each };
                copy_heads(heads, run.first, spare, kept);
                let right_first = prepend_clauses(rows, cells, heads, spare + kept, run, right);
                let first = right_first - kept;
                copy_heads(heads, spare, first, kept);
                let each = if crosswise {
                    run.first + run.each - first
                } else {
                    kept
                };
                run = Run { first, each };
                at = left;
            }
        }
    }
}

// Writes the literals of a chain from place `start` on, and answers the place after them. It follows the chain, so no counted loop would do.
fn write_chain(cells: &[Cell], literals: &mut [u32], start: usize, head: usize) -> usize
    requires { Followable cells.now head × (start + length (chain_of cells.now head) ≤ length literals.old) }
    ensures { Wrote literals.old literals.new start result (chain_of cells.now head) }
{
    let mut at = start;
    let mut h = head;
    while 0 < h {
        literals[at] = u32::from(cells[h].literal);
        at += 1;
        h = usize::from(cells[h].next);
    }
    at
}

// Writes the n clauses of row r. The list of ends holds the heads of their chains first, and then the ends: by place, as in `prepend`. The list and how much
// of it is written stay two parameters: callers lend longer lists, and `Written` says that the rest is as it was.
pub fn write_clauses(
    rows: &[u64],
    cells: &mut [Cell],
    literals: &mut [u32],
    ends: &mut [u32],
    r: usize,
    n: usize,
)
    requires { Sound rows.now r × (r < rows_max)
        × (n ≡ length (clauses false (tree_at rows.now r)))
        × RoomToWrite cells.old literals.old ends.old (clauses false (tree_at rows.now r)) }
    ensures { Written (clauses false (tree_at rows.now r))
        literals.old literals.new ends.old ends.new }
{
    let last = n - 1;
    ends[last] = 0;
    cells[0].next = 1;
    let start = Run {
        first: last,
        each: 1,
    };
    let root = SignedRow {
        row: r,
        negated: false,
    };
    prepend_clauses(rows, cells, ends, 0, start, root);
    let mut at: usize = 0;
    for k in 0..n {
        at = write_chain(cells, literals, at, ends[k] as usize);
        ends[k] = at as u32;
    }
}

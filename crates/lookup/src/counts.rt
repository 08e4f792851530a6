// How many clauses each row has, read plainly and negated: one pass over the rows, from which any clause is found by its number.
ghost use Rattle.std.specs.Prelude.{◌≡◌, ◌+◌, ◌<◌, ◌≤◌, min, length};
ghost use Rattle.limits.specs.Limits.{clauses_held};
ghost use Rattle.predicate.specs.Tree.{Sound};
ghost use Rattle.lookup.specs.ByNumber.{count_when, both_counts, not_counts, clause_counts, CountsBelow};

use limits::CLAUSES_HELD;
use predicate::{Shape, shape_at};

// How many clauses a row has in both readings, held at one more than the most that are listed.
#[derive(Clone, Copy)]
pub struct ClauseCounts {
    pub plain: u16,
    pub negated: u16,
}

// An atom has one clause in both readings.
const ATOM_COUNTS: ClauseCounts = ClauseCounts {
    plain: 1,
    negated: 1,
};

// Answers a count, or where counts stop.
fn hold(many: u32) -> u16
    ensures { result ≡ min many clauses_held }
{
    many.min(CLAUSES_HELD) as u16
}

impl ClauseCounts {
    // Answers the count in one reading.
    #[tactic(auto, unfolding(crate::specs::ByNumber::count_when))]
    pub fn when(self, negated: bool) -> usize
        ensures { result ≡ count_when self negated }
    {
        if negated {
            usize::from(self.negated)
        } else {
            usize::from(self.plain)
        }
    }

    // Counts the clauses of NOT.
    fn swapped(self) -> ClauseCounts
        ensures { result ≡ not_counts self }
    {
        ClauseCounts {
            plain: self.negated,
            negated: self.plain,
        }
    }

    // Counts the clauses of AND: one list after the other, and negated each clause with each.
    fn both(self, right: ClauseCounts) -> ClauseCounts
        ensures { result ≡ both_counts self right }
    {
        ClauseCounts {
            plain: hold(u32::from(self.plain) + u32::from(right.plain)),
            negated: hold(u32::from(self.negated) * u32::from(right.negated)),
        }
    }
}

// Counts the clauses of a row, from those of its operands. OR is AND with the readings swapped. `Sound` stays a `requires`, as in crate `predicate`.
#[tactic(auto, using(crate::proofs::HeldCounts::by_shape))]
fn clause_counts_of(rows: &[u64], table: &[ClauseCounts], row: usize) -> ClauseCounts
    requires { Sound rows.now row × (row ≤ length table.now) × CountsBelow rows.now table.now row }
    ensures { result ≡ clause_counts rows.now row }
{
    match shape_at(rows, row) {
        Shape::Leaf | Shape::One(_) | Shape::Two(_, _) => ATOM_COUNTS,
        Shape::Both(left, right) => table[left].both(table[right]),
        Shape::Either(left, right) => table[left].swapped().both(table[right].swapped()).swapped(),
        Shape::Not(operand) => table[operand].swapped(),
    }
}

// Fills the table with the counts of every row up to the root.
#[tactic(auto, using(crate::proofs::HeldCounts::filling))]
pub fn fill_clause_counts(rows: &[u64], table: &mut [ClauseCounts], root: usize)
    requires { Sound rows.now root × (root < length table.old) }
    ensures { CountsBelow rows.now table.new (root + 1) × (length table.new ≡ length table.old) }
{
    for row in 0..=root {
        table[row] = clause_counts_of(rows, table, row);
    }
}

// One clause of a predicate by its number, whatever the others are.
ghost use Rattle.std.specs.Prelude.{◌≡◌};
ghost use Rattle.lookup.specs.ByNumber.{CanFind, clause_of_two, with_clause};

use crate::counts::ClauseCounts;
use cnf::{SignedRow, Source, past_nots};
use columns::partial::{Search, with_literal};

// A clause of a row, by its number.
#[derive(Clone, Copy)]
pub struct RowClause {
    pub at: SignedRow,
    pub clause: usize,
}

// Finds a clause of two rows' lists, one after the other, of which the first has so many.
#[tactic(auto, unfolding(crate::specs::ByNumber::clause_of_two))]
fn clause_of_two(left: SignedRow, right: SignedRow, many: usize, clause: usize) -> RowClause
    ensures { result ≡ clause_of_two left right many clause }
{
    if clause < many {
        RowClause { at: left, clause }
    } else {
        RowClause {
            at: right,
            clause: clause - many,
        }
    }
}

// Adds the literals of a clause. A clause of lists that are joined crosswise is a left one and a right one, else it is one of either list.
pub fn with_clause(rows: &[u64], table: &[ClauseCounts], from: RowClause, search: &mut Search)
    requires { CanFind rows.now table.now from search.old }
    ensures { search.new ≡ with_clause rows.now from search.old }
{
    match past_nots(rows, from.at) {
        Source::Atom(atom) => with_literal(rows, atom, search),
        Source::Joined {
            left,
            right,
            crosswise,
        } => {
            if crosswise {
                let each = table[right.row].when(right.negated);
                let of_left = RowClause {
                    at: left,
                    clause: from.clause / each,
                };
                let of_right = RowClause {
                    at: right,
                    clause: from.clause % each,
                };
                with_clause(rows, table, of_left, search);
                with_clause(rows, table, of_right, search);
            } else {
                let many = table[left.row].when(left.negated);
                let side = clause_of_two(left, right, many, from.clause);
                with_clause(rows, table, side, search);
            }
        }
    }
}

// Predicates split into clauses: a predicate becomes a list of clauses, each a list of literals, that means the same.
//
// The clauses are counted first, so that nothing is written before it is known to fit. Then they are listed.
// docs/FORMAT.md has the rules; specs/ has them as definitions.
#![tactic(auto)]

ghost use Rattle.std.specs.Prelude.{◌≡◌, false, [], ◌∷◌, ◌+◌, ◌*◌, ◌<◌, ◌≤◌, length};
ghost use Rattle.limits.specs.Limits.{rows_max, clauses_max, literals_max};
ghost use Rattle.predicate.specs.Tree.{Tree, root_of, tree_at, Sound};
ghost use Rattle.cnf.specs.Clause.{literal, clauses, total};
ghost use Rattle.listing.specs.Chain.{cells_max};
ghost use Rattle.listing.specs.Listing.{Written};
ghost use Rattle.splitter.specs.Split.{Gives, list_of, Splits};

use cnf::{SignedRow, Size, Source, count_clauses, past_nots};
use limits::LITERALS_MAX;
use listing::{Cell, literal_number, write_clauses};
use refusals::{Refusal, Refused};

// How many clauses and literals were listed. A `Size` counts in 32 bits, so that products are exact; an answer counts places of the lists.
#[derive(Clone, Copy)]
pub struct Listed {
    pub clauses: usize,
    pub literals: usize,
}

impl From<Size> for Listed {
    ghost use Rattle.std.specs.Prelude.{◌≡◌};
    ghost use Rattle.splitter.specs.Split.{listed};

    ghost from_gives = { λ size result. result ≡ listed size.clauses size.literals };

    fn from(size: Size) -> Listed {
        Listed {
            clauses: size.clauses as usize,
            literals: size.literals as usize,
        }
    }
}

// The most literals for which the small table of cells suffices: clearing the large one costs more than most predicates.
const FEW: usize = 256;

// The cells of a table: one for each literal, and cell 0.
const CELLS_OF_FEW: usize = FEW + 1;

const CELLS_MAX: usize = LITERALS_MAX as usize + 1;

// Writes the n clauses of row r by way of a table of so many cells. Never inlined: one table at a time stands on the stack.
#[inline(never)]
fn write_with<const CELLS: usize>(
    rows: &[u64],
    literals: &mut [u32],
    ends: &mut [u32],
    r: usize,
    n: usize,
)
    requires { Sound rows.now r × (r < rows_max)
        × (n ≡ length (clauses false (tree_at rows.now r)))
        × (1 + total (clauses false (tree_at rows.now r)) ≤ CELLS) × (CELLS ≤ cells_max)
        × (total (clauses false (tree_at rows.now r)) ≤ length literals.old) × (n ≤ length ends.old) }
    ensures { Written (clauses false (tree_at rows.now r))
        literals.old literals.new ends.old ends.new }
{
    let mut cells = [Cell {
        literal: 0,
        next: 0,
    }; CELLS];
    write_clauses(rows, &mut cells, literals, ends, r, n);
}

// Writes the clauses of row r, so many with so many literals, by way of a table of cells that is large enough.
fn write_counted(rows: &[u64], literals: &mut [u32], ends: &mut [u32], r: usize, listed: Listed)
    requires { Sound rows.now r × (r < rows_max)
        × (listed.clauses ≡ length (clauses false (tree_at rows.now r)))
        × (listed.literals ≡ total (clauses false (tree_at rows.now r)))
        × (listed.literals ≤ literals_max)
        × ((listed.literals ≤ length literals.old) × (listed.clauses ≤ length ends.old)) }
    ensures { Written (clauses false (tree_at rows.now r))
        literals.old literals.new ends.old ends.new }
{
    if listed.literals <= FEW {
        write_with::<CELLS_OF_FEW>(rows, literals, ends, r, listed.clauses);
    } else {
        write_with::<CELLS_MAX>(rows, literals, ends, r, listed.clauses);
    }
}

// Counts the clauses of row r, and lists them where there is room. The two lists stay two parameters: in a struct each clause would say `s.entry.ends.now`.
#[tactic(auto, unfolding(crate::specs::Split::list_of, cnf::specs::Size::size_of, cnf::specs::Size::within_limits), using(cnf::proofs::Sizes::size_is))]
fn list_many(
    rows: &[u64],
    literals: &mut [u32],
    ends: &mut [u32],
    r: usize,
) -> Result<Listed, Refused>
    requires { Sound rows.now r × (r < rows_max) }
    ensures { Gives (list_of (clauses false (tree_at rows.now r)) literals.old ends.old)
        result literals.new ends.new }
{
    let root = SignedRow {
        row: r,
        negated: false,
    };
    let size = count_clauses(rows, root).ok_or(Refusal::TooMany.at(0))?;
    let listed = Listed::from(size);
    if literals.len() < listed.literals || ends.len() < listed.clauses {
        return Err(Refusal::NoList.at(0));
    }
    write_counted(rows, literals, ends, r, listed);
    Ok(listed)
}

// Lists the one literal of an atom, if there is room.
#[tactic(auto, unfolding(crate::specs::Split::list_of, cnf::specs::Clause::literal_number))]
fn list_one(literals: &mut [u32], ends: &mut [u32], atom: SignedRow) -> Result<Listed, Refused>
    requires { atom.row < rows_max }
    ensures { (t : Tree) → root_of t ≡ atom.row
        → Gives (list_of ((literal atom.negated t ∷ []) ∷ []) literals.old ends.old)
        result literals.new ends.new }
{
    if literals.is_empty() || ends.is_empty() {
        return Err(Refusal::NoList.at(0));
    }
    literals[0] = u32::from(literal_number(atom));
    ends[0] = 1;
    Ok(Listed {
        clauses: 1,
        literals: 1,
    })
}

// Lists the clauses of the tree at row r. Most often, and in a run of NOTs, that is one literal: it needs no counting. Rows and r stay two parameters, and
// what holds of them a `requires`: in a struct each clause would say `s.entry.rows.now`.
pub fn list_tree(
    rows: &[u64],
    literals: &mut [u32],
    ends: &mut [u32],
    r: usize,
) -> Result<Listed, Refused>
    requires { Sound rows.now r × (r < rows_max) }
    ensures { Gives (list_of (clauses false (tree_at rows.now r)) literals.old ends.old)
        result literals.new ends.new }
{
    let root = SignedRow {
        row: r,
        negated: false,
    };
    match past_nots(rows, root) {
        Source::Atom(atom) => list_one(literals, ends, atom),
        Source::Joined { .. } => list_many(rows, literals, ends, r),
    }
}

// Splits a predicate into clauses.
pub fn split(
    text: &[u8],
    rows: &[u64],
    literals: &mut [u32],
    ends: &mut [u32],
) -> Result<Listed, Refused>
    ensures { Splits text.now rows.now literals.old ends.old result literals.new ends.new }
{
    let root = predicate::check(text, rows)?;
    list_tree(rows, literals, ends, root)
}

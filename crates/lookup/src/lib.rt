// Lookups on a column: which clauses of a predicate are, and the values that they look for.
//
// A question names a clause by its number. The clauses of every row are counted in one pass, and from the counts the clause is found without listing
// the others: its literals are met one after the other, and make the lookup.
// docs/FORMAT.md has the rules; specs/ has them as definitions.
#![tactic(auto)]

use clause::{RowClause, with_clause};
use cnf::SignedRow;
use columns::partial::{ColumnValue, PartialLookup, Search};
use counts::{ClauseCounts, fill_clause_counts};
use limits::ROWS_MAX;
use refusals::{Refusal, Refused};
use values::Value;

mod clause;
mod counts;

ghost use Rattle.std.specs.Prelude.{◌≡◌, ◌<◌, ◌≤◌};
ghost use Rattle.limits.specs.Limits.{rows_max};
ghost use Rattle.predicate.specs.Tree.{Sound};
ghost use Rattle.predicate.specs.Read.{read_rows};
ghost use Rattle.cnf.specs.Source.{clauses_at};
ghost use Rattle.lookup.specs.Answer.{lookup_of, lookup_among, LooksUp, FindsValue};
ghost use Rattle.lookup.specs.ByNumber.{HasClause, clause_partial, answer_of, partial_answer};

// The lookup that a clause is: on which column, and how many values it has.
#[derive(Clone, Copy)]
pub struct ColumnLookup {
    pub column: usize,
    pub values: usize,
}

// The most rows for which the small table of counts suffices: clearing the large one costs more than most predicates.
const FEW_ROWS: usize = 64;

const NO_COUNTS: ClauseCounts = ClauseCounts {
    plain: 0,
    negated: 0,
};

// Answers the lookup that a clause makes, by way of a table of counts of N rows.
fn clause_lookup_within<const N: usize>(
    rows: &[u64],
    from: RowClause,
    wanted: usize,
) -> PartialLookup
    requires { HasClause rows.now from × (from.at.row < N) × (N ≤ rows_max) }
    ensures { result ≡ clause_partial rows.now from wanted }
{
    let mut table = [NO_COUNTS; N];
    fill_clause_counts(rows, &mut table, from.at.row);
    let mut search = Search {
        wanted,
        partial: PartialLookup::Empty,
    };
    with_clause(rows, &table, from, &mut search);
    search.partial
}

// Answers the same, by a table that is large enough for the rows.
fn clause_lookup(rows: &[u64], from: RowClause, wanted: usize) -> PartialLookup
    requires { HasClause rows.now from }
    ensures { result ≡ clause_partial rows.now from wanted }
{
    if from.at.row < FEW_ROWS {
        clause_lookup_within::<FEW_ROWS>(rows, from, wanted)
    } else {
        clause_lookup_within::<ROWS_MAX>(rows, from, wanted)
    }
}

// Answers what the literals of a whole clause make.
#[tactic(auto, unfolding(crate::specs::ByNumber::partial_answer))]
fn partial_answer(partial: PartialLookup) -> Result<ColumnValue, Refused>
    ensures { result ≡ partial_answer partial }
{
    match partial {
        PartialLookup::OnColumn(found) => Ok(found),
        PartialLookup::Empty | PartialLookup::NotLookup => Err(Refusal::NotLookup.at(0)),
    }
}

// Answers of a clause of a row. Inlined, as `lookup_of` is.
#[inline(always)]
#[tactic(auto, using(crate::proofs::AnswerOfClause::lookup_too_many, crate::proofs::AnswerOfClause::lookup_no_such))]
fn lookup_at(rows: &[u64], from: RowClause, wanted: usize) -> Result<ColumnValue, Refused>
    requires { Sound rows.now from.at.row × (from.at.row < rows_max) }
    ensures { result ≡ answer_of wanted (lookup_among (clauses_at rows.now from.at) from.clause) }
{
    let size = cnf::count_clauses(rows, from.at).ok_or(Refusal::TooMany.at(0))?;
    if size.clauses as usize <= from.clause {
        return Err(Refusal::NoSuch.at(0));
    }
    partial_answer(clause_lookup(rows, from, wanted))
}

// Answers of a clause of a predicate. Inlined in both entries: an answer that comes back through memory is copied in parts, and then a short lookup takes two
// fifths more.
#[inline(always)]
#[tactic(auto, using(crate::proofs::AnswerOfClause::lookup_of_tree))]
fn lookup_of(
    text: &[u8],
    rows: &[u64],
    clause: usize,
    wanted: usize,
) -> Result<ColumnValue, Refused>
    ensures { result ≡ answer_of wanted (lookup_of (read_rows text.now rows.now) clause) }
{
    let root = predicate::check(text, rows)?;
    let at = SignedRow {
        row: root,
        negated: false,
    };
    lookup_at(rows, RowClause { at, clause }, wanted)
}

// Answers on which column a clause is a lookup, and with how many values.
#[tactic(auto, using(crate::proofs::LookupMeans::looking_up))]
pub fn lookup(text: &[u8], rows: &[u64], clause: usize) -> Result<ColumnLookup, Refused>
    ensures { LooksUp text.now rows.now clause result }
{
    let found = lookup_of(text, rows, clause, 0)?;
    Ok(ColumnLookup {
        column: found.column,
        values: found.values,
    })
}

// Answers one of the values of a lookup, by its number.
#[tactic(auto, using(crate::proofs::LookupMeans::finding))]
pub fn value_at(text: &[u8], rows: &[u64], clause: usize, wanted: usize) -> Result<Value, Refused>
    ensures { FindsValue text.now rows.now clause wanted result }
{
    let found = lookup_of(text, rows, clause, wanted)?;
    found.value.ok_or(Refusal::NoSuch.at(0))
}

// A lookup as the literals of a clause make it, one after the other.
ghost use Rattle.std.specs.Prelude.{Some, ◌≡◌, ◌≤◌};
ghost use Rattle.limits.specs.Limits.{literals_max};
ghost use Rattle.predicate.specs.Tree.{tree_at, Sound};
ghost use Rattle.cnf.specs.Clause.{literal};
ghost use Rattle.columns.specs.Lookup.{literal_test};
ghost use Rattle.columns.specs.Partial.{with_value, with_test, value_count, search_one};

use crate::test::{Test, test_at};
use cnf::SignedRow;
use values::Value;

// A lookup on a column: how many values it has, and the wanted one, if there are so many.
#[derive(Clone, Copy)]
pub struct ColumnValue {
    pub column: usize,
    pub values: usize,
    pub value: Option<Value>,
}

// What the literals so far make: there are none yet; they are no lookup; or they are one on a column. These are three cases, where an Option has two.
#[derive(Clone, Copy)]
pub enum PartialLookup {
    Empty,
    NotLookup,
    OnColumn(ColumnValue),
}

// A search for one of the values of a lookup: its number, and what the literals so far make.
#[derive(Clone, Copy)]
pub struct Search {
    pub wanted: usize,
    pub partial: PartialLookup,
}

impl ColumnValue {
    // Adds the value that a test looks for, if there is one.
    #[tactic(auto, unfolding(crate::specs::Partial::with_value))]
    fn with_value(self, wanted: usize, found: Option<Value>) -> ColumnValue
        requires { self.values ≤ literals_max }
        ensures { result ≡ with_value wanted self found }
    {
        if found.is_none() {
            return self;
        }
        ColumnValue {
            values: self.values + 1,
            value: if self.values == wanted {
                found
            } else {
                self.value
            },
            ..self
        }
    }
}

impl Search {
    // Adds one test to what the literals so far make. The first says which column it must be.
    #[tactic(auto, unfolding(crate::specs::Partial::with_test, crate::specs::Partial::value_count))]
    fn with_test(self, test: Test) -> PartialLookup
        requires { value_count self.partial ≤ literals_max }
        ensures { result ≡ with_test self.wanted self.partial (Some test) }
    {
        let so_far = match self.partial {
            PartialLookup::Empty => ColumnValue {
                column: test.column,
                values: 0,
                value: None,
            },
            PartialLookup::OnColumn(so_far) if so_far.column == test.column => so_far,
            _ => return PartialLookup::NotLookup,
        };
        PartialLookup::OnColumn(so_far.with_value(self.wanted, test.condition.value()))
    }
}

// Answers what a literal tests: no column, if it is negated.
#[tactic(auto, unfolding(crate::specs::Lookup::literal_test))]
fn literal_test(rows: &[u64], atom: SignedRow) -> Option<Test>
    requires { Sound rows.now atom.row }
    ensures { result ≡ literal_test (literal atom.negated (tree_at rows.now atom.row)) }
{
    if atom.negated {
        None
    } else {
        test_at(rows, atom.row)
    }
}

// Adds one literal, by its atom's row. It stays a call of its own, so that a caller that calls itself has small frames.
#[inline(never)]
#[tactic(auto, unfolding(crate::specs::Partial::with_test))]
pub fn with_literal(rows: &[u64], atom: SignedRow, search: &mut Search)
    requires { Sound rows.now atom.row × (value_count search.old.partial ≤ literals_max) }
    ensures { search.new ≡ search_one search.old (literal_test (literal atom.negated (tree_at rows.now atom.row))) }
{
    search.partial = match literal_test(rows, atom) {
        Some(test) => search.with_test(test),
        None => PartialLookup::NotLookup,
    };
}

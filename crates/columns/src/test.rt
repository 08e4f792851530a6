// What an atom tests of a column.
ghost use Rattle.std.specs.Prelude.{◌≡◌, ◌<◌};
ghost use Rattle.std.specs.Option.{option_map};
ghost use Rattle.rows.specs.Label.{leaf_label};
ghost use Rattle.predicate.specs.Tree.{tree_at, Sound};
ghost use Rattle.columns.specs.Lookup.{leaf_of, is_column, is_constant, looked_for, comparison, equal_test, is_test, test_of};

use predicate::{Shape, kind, shape_at};
use rows::{Row, row_at};
use values::{Constant, Value};

// A test of a column.
#[derive(Clone, Copy)]
pub struct Test {
    pub column: usize,
    pub condition: Condition,
}

// What a test asks of its column: that it equals a constant; or that it is NULL (0) or NaN, by the number of its row, which `is_test` of specs/ keeps.
#[derive(Clone, Copy)]
pub enum Condition {
    Equals(Constant),
    Is(u64),
}

impl Condition {
    // Answers the value that is looked for: none, if it is a constant that no cell equals.
    #[tactic(auto, unfolding(crate::specs::Lookup::looked_for, crate::specs::Lookup::defined))]
    pub fn value(self) -> Option<Value>
        ensures { result ≡ looked_for self }
    {
        match self {
            Condition::Equals(constant) => {
                Some(Value::from(constant)).filter(|value| !value.is_undefined())
            }
            Condition::Is(0) => Some(Value::Null),
            Condition::Is(_) => Some(Value::Float(f64::NAN)),
        }
    }
}

#[tactic(auto, unfolding(crate::specs::Lookup::is_column))]
fn is_column(leaf: Row) -> bool
    ensures { result ≡ is_column (leaf_label leaf) }
{
    leaf.kind == kind::COLUMN
}

#[tactic(auto, unfolding(crate::specs::Lookup::is_constant))]
fn is_constant(leaf: Row) -> bool
    ensures { result ≡ is_constant (leaf_label leaf) }
{
    matches!(leaf.kind, kind::NULL..=kind::STRING)
}

// Answers the row of a column or a constant, which has no operands. `Sound` stays a `requires` here and in `partial`, as in crate `predicate`.
#[tactic(auto, using(crate::proofs::TestsByShape::leaves))]
fn leaf_at(rows: &[u64], row: usize) -> Option<Row>
    requires { Sound rows.now row }
    ensures { option_map leaf_label result ≡ leaf_of (tree_at rows.now row) }
{
    match shape_at(rows, row) {
        Shape::Leaf => Some(row_at(rows, row)),
        _ => None,
    }
}

// Answers the test that compares a column with a constant.
#[tactic(auto, unfolding(crate::specs::Lookup::comparison))]
fn comparison(column: Row, constant: Row) -> Test
    ensures { result ≡ comparison (leaf_label column) (leaf_label constant) }
{
    Test {
        column: column.x as usize,
        condition: Condition::Equals(Constant::from(constant)),
    }
}

// Answers what Equal of two operands tests.
#[tactic(auto, unfolding(crate::specs::Lookup::equal_test))]
fn equal_test(left: Row, right: Row) -> Option<Test>
    ensures { result ≡ equal_test (leaf_label left) (leaf_label right) }
{
    if is_column(left) && is_constant(right) {
        Some(comparison(left, right))
    } else if is_column(right) && is_constant(left) {
        Some(comparison(right, left))
    } else {
        None
    }
}

// Answers what Is of an operand tests.
#[tactic(auto, unfolding(crate::specs::Lookup::is_test))]
fn is_test(operand: Row, what: u64) -> Option<Test>
    ensures { result ≡ is_test (leaf_label operand) what }
{
    if !is_column(operand) {
        return None;
    }
    Some(Test {
        column: operand.x as usize,
        condition: Condition::Is(what),
    })
}

// Answers what the atom at a row tests.
#[tactic(auto, using(crate::proofs::TestsByShape::by_shape))]
pub fn test_at(rows: &[u64], atom: usize) -> Option<Test>
    requires { Sound rows.now atom }
    ensures { result ≡ test_of (tree_at rows.now atom) }
{
    let row = row_at(rows, atom);
    match (shape_at(rows, atom), row.kind) {
        (Shape::One(operand), kind::IS) => is_test(leaf_at(rows, operand)?, row.y),
        (Shape::Two(left, right), kind::EQUAL) => {
            equal_test(leaf_at(rows, left)?, leaf_at(rows, right)?)
        }
        _ => None,
    }
}

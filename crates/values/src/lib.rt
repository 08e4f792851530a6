// Values and constants: what a constant stands for, and the constant that stands for a value.
#![tactic(auto)]

ghost use Rattle.std.specs.Prelude.{◌≡◌};
ghost use Rattle.values.specs.Value.{is_undefined};

use predicate::kind;
use rows::Row;
use std::num::{f64_from_bits_with_nan, f64_to_bits_with_nan};

// A constant, as its kind and two numbers. That is three numbers, whatever a row has.
#[derive(Clone, Copy)]
pub struct Constant {
    pub kind: u64,
    pub x: u64,
    pub y: u64,
}

// What a lookup hands out. A string is a part of the lent text.
#[derive(Clone, Copy)]
pub enum Value {
    Null,
    Boolean(bool),
    Integer(i64),
    Float(f64),
    String { start: usize, length: usize },
}

// Takes the constant out of its row.
impl From<Row> for Constant {
    ghost use Rattle.std.specs.Prelude.{◌≡◌};
    ghost use Rattle.rows.specs.Label.{leaf_label};
    ghost use Rattle.values.specs.Value.{constant_of_label};

    ghost from_gives = { λ row c. c ≡ constant_of_label (leaf_label row) };

    fn from(row: Row) -> Constant {
        Constant {
            kind: row.kind,
            x: row.x,
            y: row.y,
        }
    }
}

// Answers the value that a constant stands for. Each pattern of a NaN gives the one NaN.
impl From<Constant> for Value {
    ghost use Rattle.std.specs.Prelude.{◌≡◌};
    ghost use Rattle.values.specs.Value.{value_of};

    ghost from_gives = { λ c v. v ≡ value_of c };

    #[tactic(auto, unfolding(crate::specs::Value::value_of, crate::specs::Value::value_by, crate::specs::Value::signed_of))]
    fn from(constant: Constant) -> Value {
        match constant.kind {
            kind::BOOLEAN => Value::Boolean(constant.x == 1),
            kind::INTEGER => Value::Integer(constant.x.cast_signed()),
            kind::FLOAT => Value::Float(f64_from_bits_with_nan(constant.x)),
            kind::STRING => Value::String {
                start: constant.x as usize,
                length: constant.y as usize,
            },
            _ => Value::Null,
        }
    }
}

// Answers the constant that stands for a value. A NaN has always the same pattern: what a computed NaN holds at run time is not said.
impl From<Value> for Constant {
    ghost use Rattle.std.specs.Prelude.{◌≡◌};
    ghost use Rattle.values.specs.Value.{constant_of};

    ghost from_gives = { λ v c. c ≡ constant_of v };

    #[tactic(auto, unfolding(crate::specs::Value::constant_of, crate::specs::Value::pattern_of))]
    fn from(value: Value) -> Constant {
        let (kind, x, y) = match value {
            Value::Null => (kind::NULL, 0, 0),
            Value::Boolean(b) => (kind::BOOLEAN, u64::from(b), 0),
            Value::Integer(n) => (kind::INTEGER, n.cast_unsigned(), 0),
            Value::Float(f) => (kind::FLOAT, f64_to_bits_with_nan(f), 0),
            Value::String { start, length } => (kind::STRING, start as u64, length as u64),
        };
        Constant { kind, x, y }
    }
}

impl Value {
    // Tells if it is NULL or NaN: no cell equals these.
    #[tactic(auto, unfolding(crate::specs::Value::is_undefined))]
    pub fn is_undefined(self) -> bool
        ensures { result ≡ is_undefined self }
    {
        match self {
            Value::Null => true,
            Value::Float(x) => x.is_nan(),
            Value::Boolean(_) | Value::Integer(_) | Value::String { .. } => false,
        }
    }
}

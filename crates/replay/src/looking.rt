// The stored answers of the original's lookups: a line of split.txt is `L`, a text, a predicate's rows, a clause, and `N` where it is no lookup, or `V` with
// the column and the values, each as a constant.
use crate::fields::{Fields, ROWS, TEXT};
use lookup::ColumnLookup;
use refusals::{Refusal, Refused};
use rows::WIDTH;
use values::{Constant, Value};

// No stored clause has a higher number.
const CLAUSE_MAX: usize = 4096;

// A clause of a predicate, by its number.
#[derive(Clone, Copy)]
struct Clause<'a> {
    text: &'a [u8],
    rows: &'a [u64],
    number: usize,
}

impl Clause<'_> {
    // Answers value i.
    fn value(self, i: usize) -> Result<Value, Refused> {
        lookup::value_at(self.text, self.rows, self.number, i)
    }

    // Tells if value i is the constant of the next fields.
    fn value_is(self, i: usize, fields: &mut Fields) -> bool {
        match self.value(i) {
            Ok(value) => {
                let constant = Constant::from(value);
                fields.are(&[constant.kind, constant.x, constant.y])
            }
            Err(_) => false,
        }
    }

    // Tells if the clause has so many values, which are those of the next fields.
    fn values_are(self, count: usize, fields: &mut Fields) -> bool {
        let no_more = self
            .value(count)
            .is_err_and(|refused| refused.why == Refusal::NoSuch);
        no_more && (0..count).all(|i| self.value_is(i, fields))
    }

    // Tells if the answer is what the next fields say.
    fn answer_is(self, fields: &mut Fields) -> bool {
        match lookup::lookup(self.text, self.rows, self.number) {
            Ok(ColumnLookup { column, values }) => {
                fields.are(&[b'V' as u64, column as u64, values as u64])
                    && self.values_are(values, fields)
            }
            Err(refused) => refused.why == Refusal::NotLookup && fields.are(&[b'N']),
        }
    }
}

// Tells if the lookup entries answer what is stored.
pub fn look_case(fields: &mut Fields) -> bool {
    let mut text = [0u8; TEXT];
    let mut rows = [0u64; ROWS * WIDTH];
    let text = fields.text(&mut text);
    let rows = fields.rows(&mut rows);
    let number = fields.count(CLAUSE_MAX);
    let clause = Clause { text, rows, number };
    clause.answer_is(fields)
}

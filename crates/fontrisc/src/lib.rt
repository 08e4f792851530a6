// The C face: each function calls one entry and hands its answer out as numbers. include/fontrisc.h declares them for C and C++.
//
// A slice is a pointer and a count of elements. Each function but `fontrisc_spelled` returns 0 for an answer, else the refusal's number; then the first
// number lent for answers is the refusal's place and the others are 0. Which numbers an answer is, the entry's own promise says.
#![tactic(auto)]

ghost use Rattle.std.specs.Prelude.{◌≡◌};
ghost use Rattle.refusals.specs.Refusal.{refusal_number};
ghost use Rattle.tokens.specs.Token.{span_at};
ghost use Rattle.fontrisc.specs.Face.{ParsesTo, SplitsTo, LooksUpTo, FindsValueTo};

use refusals::Refused;
use values::Constant;

// Hands out the place of a refusal; answers its number.
fn hand_out(refused: Refused, place: &mut u64) -> u32
    ensures { (result ≡ refusal_number refused.why) × (place.new ≡ refused.place) }
{
    *place = refused.place as u64;
    u32::from(refused.why)
}

// Hands out where the bytes of token n lie in the text.
#[unsafe(no_mangle)]
pub extern "C" fn fontrisc_spelled(
    text: &[u8],
    tokens: &[u32],
    n: usize,
    start: &mut u64,
    length: &mut u64,
)
    ensures { (start.new ≡ (span_at text.now tokens.now n).start)
        × (length.new ≡ (span_at text.now tokens.now n).length) }
{
    let span = tokens::table::span_at(text, tokens, n);
    *start = span.start as u64;
    *length = span.length as u64;
}

// Reads tokens into rows: `at` is how many rows were written.
#[unsafe(no_mangle)]
pub extern "C" fn fontrisc_parse(text: &[u8], tokens: &[u32], rows: &mut [u64], at: &mut u64) -> u32
    ensures { ParsesTo text.now tokens.now rows.old rows.new result at.new }
{
    match parser::parse(text, tokens, rows) {
        Ok(n) => {
            *at = n as u64;
            0
        }
        Err(refused) => hand_out(refused, at),
    }
}

// Splits a predicate: `clauses` and `total` are how many clauses and literals were written.
#[unsafe(no_mangle)]
pub extern "C" fn fontrisc_split(
    text: &[u8],
    rows: &[u64],
    literals: &mut [u32],
    ends: &mut [u32],
    clauses: &mut u64,
    total: &mut u64,
) -> u32
    ensures { SplitsTo text.now rows.now literals.old ends.old
        literals.new ends.new result clauses.new total.new }
{
    match splitter::split(text, rows, literals, ends) {
        Ok(listed) => {
            *clauses = listed.clauses as u64;
            *total = listed.literals as u64;
            0
        }
        Err(refused) => {
            *total = 0;
            hand_out(refused, clauses)
        }
    }
}

// Asks whether a clause is a lookup: `column` is the column, and `count` how many values there are.
#[unsafe(no_mangle)]
pub extern "C" fn fontrisc_lookup(
    text: &[u8],
    rows: &[u64],
    clause: usize,
    column: &mut u64,
    count: &mut u64,
) -> u32
    ensures { LooksUpTo text.now rows.now clause result column.new count.new }
{
    match lookup::lookup(text, rows, clause) {
        Ok(found) => {
            *column = found.column as u64;
            *count = found.values as u64;
            0
        }
        Err(refused) => {
            *count = 0;
            hand_out(refused, column)
        }
    }
}

// Asks for value n of a clause that is a lookup, as a constant: `kind`, `x` and `y`.
#[unsafe(no_mangle)]
pub extern "C" fn fontrisc_value(
    text: &[u8],
    rows: &[u64],
    clause: usize,
    n: usize,
    kind: &mut u64,
    x: &mut u64,
    y: &mut u64,
) -> u32
    ensures { FindsValueTo text.now rows.now clause n result kind.new x.new y.new }
{
    match lookup::value_at(text, rows, clause, n) {
        Ok(value) => {
            let constant = Constant::from(value);
            *kind = constant.kind;
            *x = constant.x;
            *y = constant.y;
            0
        }
        Err(refused) => {
            *x = 0;
            *y = 0;
            hand_out(refused, kind)
        }
    }
}

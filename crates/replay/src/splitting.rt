// The stored answers of the original's splitter: a line of split.txt is `S`, a text, a predicate's rows, and `C` with the clauses, each a count and its
// literals.
use crate::fields::{Fields, ROWS, TEXT};
use crate::lent::{BEFORE, written};
use rows::WIDTH;
use splitter::Listed;

const LITERALS: usize = 1024;

const ENDS: usize = 512;

// Tells if the clauses are those of the next fields, to the last field. `drawing` goes through the ends alike: of the crates below both only the splitter has
// such lists, and it hands out its entries alone.
fn clauses_are(literals: &[u32], ends: &[u32], fields: &mut Fields) -> bool {
    let mut start = 0;
    for end in ends {
        let end = *end as usize;
        let Some(clause) = literals.get(start..end) else {
            return false;
        };
        if fields.next() != Some(clause.len() as u64) || !fields.are(clause) {
            return false;
        }
        start = end;
    }
    fields.at_end()
}

// Tells if the lists are what the next fields say, `C`, a count and the clauses, and otherwise as before.
fn lists_are(listed: Listed, literals: &[u32], ends: &[u32], fields: &mut Fields) -> bool {
    if !fields.are(&[b'C']) || fields.next() != Some(listed.clauses as u64) {
        return false;
    }
    let (Some(literals), Some(ends)) = (
        written(literals, listed.literals),
        written(ends, listed.clauses),
    ) else {
        return false;
    };
    clauses_are(literals, ends, fields)
}

// Tells if the splitter answers what is stored.
pub fn split_case(fields: &mut Fields) -> bool {
    let mut text = [0u8; TEXT];
    let mut rows = [0u64; ROWS * WIDTH];
    let mut literals = [BEFORE as u32; LITERALS];
    let mut ends = [BEFORE as u32; ENDS];
    let text = fields.text(&mut text);
    let rows = fields.rows(&mut rows);
    match splitter::split(text, rows, &mut literals, &mut ends) {
        Ok(listed) => lists_are(listed, &literals, &ends, fields),
        Err(_) => false,
    }
}

// The stored answers of the original's parser: a line of parse.txt is `P`, a text, its tokens, and `A` with the rows or `R` with the refusal.
use crate::fields::{Fields, TEXT};
use crate::lent::{BEFORE, written};
use refusals::Refused;
use rows::WIDTH;
use tokens::table::WIDTH as TOKEN_WIDTH;

const TOKENS: usize = 300;

const ROWS: usize = 512;

// Tells if the answer is what the next fields say: `A`, a count and rows, or `R`, a number and a place, and zeros in all of the table.
fn answer_is(answer: Result<usize, Refused>, rows: &[u64], fields: &mut Fields) -> bool {
    match answer {
        Ok(n) => {
            fields.are(&[b'A' as u64, n as u64])
                && written(rows, n.saturating_mul(WIDTH)).is_some_and(|rows| fields.are(rows))
        }
        Err(Refused { why, place }) => {
            fields.are(&[b'R' as u64, u32::from(why) as u64, place as u64])
                && rows.iter().all(|x| *x == 0)
        }
    }
}

// Tells if the parser answers what is stored.
pub fn parse_case(fields: &mut Fields) -> bool {
    let mut text = [0u8; TEXT];
    let mut tokens = [0u32; TOKENS * TOKEN_WIDTH];
    let mut rows = [BEFORE; ROWS * WIDTH];
    let text = fields.text(&mut text);
    let tokens = fields.tokens(&mut tokens);
    let answer = parser::parse(text, tokens, &mut rows);
    answer_is(answer, &rows, fields)
}

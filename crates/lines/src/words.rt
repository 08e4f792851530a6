// A line's words as tokens. This is no lexer: a word is one token, and what separates words is a blank.
use crate::kinds::kind_of;
use crate::scan::{Word, Words};
use tokens::kind;
use tokens::table::{Token, WIDTH};

// Answers the lowest 32 bits of a number. `x as u32` asks for a proof that x fits, and nothing here bounds a line; `u32::try_from(x)` would have to say what
// becomes of a line of 4 GiB.
fn low_32_bits(x: usize) -> u32 {
    (x % (1 << 32)) as u32
}

// Answers the token of a word. The quotes of a String stand outside its span.
fn token_of(word: Word) -> Token {
    let kind = kind_of(word.bytes);
    let quote = usize::from(kind == kind::STRING);
    Token {
        kind,
        start: low_32_bits(word.before.len() + quote),
        length: low_32_bits(word.bytes.len().saturating_sub(2 * quote)),
    }
}

// Writes the tokens of words, as many as there is room for; answers them. It counts what it writes: `chunks_exact_mut` would not tell how many were filled.
pub fn tokens_of<'a>(words: Words, table: &'a mut [u32]) -> &'a [u32] {
    let mut n = 0;
    for word in words {
        let t = token_of(word);
        if let Some(place) = table.get_mut(n..n + WIDTH) {
            place.copy_from_slice(&[t.kind, t.start, t.length]);
            n += WIDTH;
        }
    }
    &table[..n]
}

// Tells if a byte is a sign, a part of one, or a quote.
fn is_mark(b: u8) -> bool {
    matches!(b, b'!' | b'"' | b'%' | b'\''..=b'/' | b';'..=b'>' | b'^')
}

// Tells if a word is a name with a sign or a quote in it: it was likely meant as several tokens.
fn is_doubtful(word: &[u8]) -> bool {
    kind_of(word) == kind::IDENT && word.iter().any(|b| is_mark(*b))
}

// Finds the first doubtful word.
pub fn first_doubt(mut words: Words) -> Option<&[u8]> {
    words.map(|word| word.bytes).find(|word| is_doubtful(word))
}

// The table of tokens: its check, and the bytes of a token. The table stays a slice of numbers, three for a token: so C lends it. The text and the table stay
// two parameters: a struct that holds slices is named at two moments in each clause (`t.entry.text.now`).
ghost use Rattle.std.specs.Prelude.{◌≡◌, ◌&&◌, ◌+◌};
ghost use Rattle.tokens.specs.Token.{token_count, token_at, kind_at, known as known_of, fits, check_from, check_table, span_at, spelled as spelled_of};

use crate::kind;
use limits::{TEXT_MAX, TOKENS_MAX};
use refusals::{Refusal, Refused};

// Numbers per token.
pub const WIDTH: usize = 3;

// A token: its kind, and its span in the text. No token is kind 0 with an empty span, and no Option: so `token_at` of specs/ has it, and 0 is no kind, so
// that a reader asks one question.
#[derive(Clone, Copy)]
pub struct Token {
    pub kind: u32,
    pub start: u32,
    pub length: u32,
}

// A part of the text. It is no `Range`: that is not Copy, and `span_at` of specs/ says where it starts and how long it is.
#[derive(Clone, Copy)]
pub struct Span {
    pub start: usize,
    pub length: usize,
}

// Counts the whole tokens.
pub fn count(tokens: &[u32]) -> usize
    ensures { result ≡ token_count tokens.now }
{
    tokens.len() / WIDTH
}

// Reads token n, or none.
#[tactic(auto, unfolding(crate::specs::Token::token_at))]
fn token_at(tokens: &[u32], n: usize) -> Token
    ensures { result ≡ token_at tokens.now n }
{
    if n < count(tokens) {
        let at = n * WIDTH;
        Token {
            kind: tokens[at],
            start: tokens[at + 1],
            length: tokens[at + 2],
        }
    } else {
        Token {
            kind: 0, // none
            start: 0,
            length: 0,
        }
    }
}

// Answers the kind of token n, and 0 where there is none, as `Token` has it: all that a reader looks at on its way.
#[tactic(auto, unfolding(crate::specs::Token::kind_at, crate::specs::Token::token_at))]
pub fn kind_at(tokens: &[u32], n: usize) -> u32
    ensures { result ≡ kind_at tokens.now n }
{
    if n < count(tokens) {
        tokens[n * WIDTH]
    } else {
        0
    }
}

// Tells if a kind is known.
#[tactic(auto, unfolding(crate::specs::Token::known))]
fn known(kind: u32) -> bool
    ensures { result ≡ known_of kind }
{
    matches!(kind, 1..=kind::LAST)
}

// Tells if a token's span lies in the text. The sum of two 32-bit numbers cannot wrap here.
#[tactic(auto, unfolding(crate::specs::Token::fits))]
fn span_fits(text: &[u8], t: Token) -> bool
    ensures { result ≡ fits text.now t }
{
    t.start as usize + t.length as usize <= text.len()
}

// Tells if token n is of a known kind, with its span in the text.
#[tactic(auto, unfolding(crate::specs::Token::kind_at))]
fn token_good(text: &[u8], tokens: &[u32], n: usize) -> bool
    ensures { result ≡ (known_of (kind_at tokens.now n) && fits text.now (token_at tokens.now n)) }
{
    let t = token_at(tokens, n);
    known(t.kind) && span_fits(text, t)
}

// Checks each token in turn, up to the first that is not good; answers how many there are.
fn check_tokens(text: &[u8], tokens: &[u32]) -> Result<usize, Refused>
    ensures { result ≡ check_from text.now tokens.now 0 (token_count tokens.now) }
{
    let whole = count(tokens);
    for n in 0..whole {
        if !token_good(text, tokens, n) {
            return Err(Refusal::BadTable.at(n));
        }
    }
    Ok(whole)
}

// Checks the lengths first, then each token in turn; answers how many tokens there are.
#[tactic(auto, unfolding(crate::specs::Token::check_table))]
pub fn check_table(text: &[u8], tokens: &[u32]) -> Result<usize, Refused>
    ensures { result ≡ check_table text.now tokens.now }
{
    let whole = count(tokens);
    if TEXT_MAX < text.len() || TOKENS_MAX < whole {
        return Err(Refusal::TooLong.at(0));
    }
    if tokens.len() % WIDTH != 0 {
        return Err(Refusal::BadTable.at(whole));
    }
    check_tokens(text, tokens)
}

// Finds where the bytes of token n lie in the text. Of no token that is the empty part and no None, here and in `spelled`: so FORMAT §2.6 has it.
#[tactic(auto, unfolding(crate::specs::Token::span_at, crate::specs::Token::span_of))]
pub fn span_at(text: &[u8], tokens: &[u32], n: usize) -> Span
    ensures { result ≡ span_at text.now tokens.now n }
{
    let t = token_at(tokens, n);
    if span_fits(text, t) {
        Span {
            start: t.start as usize,
            length: t.length as usize,
        }
    } else {
        Span {
            start: 0, // of the text
            length: 0,
        }
    }
}

// Answers the bytes of token n, as that part of the text; the empty part at the start where there is no such token or its span is not in the text.
pub fn spelled<'a>(text: &'a [u8], tokens: &[u32], n: usize) -> &'a [u8]
    ensures bytes { result.now ≡ spelled_of text.now tokens.now n }
    ensures place { (result.ref_ptr.0 ≡ text.entry.ref_ptr.0) × (result.ref_ptr.1 ≡ (span_at text.now tokens.now n).start + text.entry.ref_ptr.1) }
{
    let span = span_at(text, tokens, n);
    let end = span.start + span.length;
    &text[span.start..end]
}

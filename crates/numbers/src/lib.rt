// Which spellings are numbers, in one pass over the bytes.
// docs/FORMAT.md has the rule; specs/ has it as a definition.
#![tactic(auto)]

ghost use Rattle.std.specs.Prelude.{IfSome, ◌≡◌, ◌-◌, ◌+◌, ◌*◌, ◌≤◌};
ghost use Rattle.numbers.specs.Number.{digit as digit_of, begins, digits, past_digits, past_fraction, past_sign, exponent, value_from, number_of};
ghost use Rattle.numbers.specs.Run.{small, leading};

use limits::INTEGER_MAX;

// A number, as it is spelled: an Integer with its value, or a Float, which is not read further.
#[derive(Clone, Copy)]
pub enum Number {
    Integer(u64),
    Float,
}

// The digits that a spelling begins with: their value, unless it is past the largest Integer, and what follows them.
#[derive(Clone, Copy)]
pub struct Run<'a> {
    pub value: Option<u64>,
    pub rest: &'a [u8],
}

// Tells if a byte is a digit.
#[tactic(auto, unfolding(crate::specs::Number::digit))]
fn digit(b: u8) -> bool
    ensures { result ≡ digit_of b }
{
    b'0' <= b && b <= b'9'
}

// Answers the value with one more digit after those that spelled `value`, unless it is past the largest Integer. Nearly every value is far below that and
// takes one comparison. Both comparisons are with one number, so that the compiler keeps it in a register.
#[tactic(auto, unfolding(crate::specs::Run::small))]
fn grown(value: u64, b: u8) -> Option<u64>
    requires { (48 ≤ b) × (b ≤ 57) }
    ensures { result ≡ small (value * 10 + (b - 48)) }
{
    let unit = u64::from(b - b'0');
    if value < INTEGER_MAX / 10 {
        return Some(value * 10 + unit);
    }
    if INTEGER_MAX / 10 < value {
        return None;
    }
    let more = value * 10 + unit;
    if more <= INTEGER_MAX {
        Some(more)
    } else {
        None
    }
}

// Goes past the digits that a spelling begins with, perhaps none.
fn past_digits(s: &[u8]) -> &[u8]
    ensures { result.now ≡ past_digits s.now }
{
    let mut rest = s;
    while let [b, after @ ..] = rest {
        if !digit(*b) {
            break;
        }
        rest = after;
    }
    rest
}

// Reads the digits that a spelling begins with, perhaps none. It goes by what is left: the run ends where the digits end. If the value is past the largest
// Integer, the other digits are skipped.
fn digits(s: &[u8]) -> Run
    ensures value { result.value ≡ small (value_from 0 (leading s.now)) }
    ensures rest { result.rest.now ≡ past_digits s.now }
{
    let mut value = 0;
    let mut rest = s;
    while let [b, after @ ..] = rest {
        if !digit(*b) {
            break;
        }
        let Some(more) = grown(value, *b) else {
            return Run {
                value: None,
                rest: past_digits(after),
            };
        };
        value = more;
        rest = after;
    }
    Run {
        value: Some(value),
        rest,
    }
}

// Tells if a spelling begins with a digit.
#[tactic(auto, unfolding(crate::specs::Number::begins))]
fn begins(s: &[u8]) -> bool
    ensures { result ≡ begins s.now }
{
    match s {
        [b, ..] => digit(*b),
        [] => false,
    }
}

// Goes past an optional `.` with any digits.
#[tactic(auto, unfolding(crate::specs::Number::past_fraction))]
fn past_fraction(s: &[u8]) -> &[u8]
    ensures { result.now ≡ past_fraction s.now }
{
    match s {
        [b'.', after @ ..] => past_digits(after),
        _ => s,
    }
}

// Goes past an optional sign.
#[tactic(auto, unfolding(crate::specs::Number::past_sign))]
fn past_sign(s: &[u8]) -> &[u8]
    ensures { result.now ≡ past_sign s.now }
{
    match s {
        [b'+' | b'-', after @ ..] => after,
        _ => s,
    }
}

// Tells if this is digits, at least one, and nothing else.
#[tactic(auto, unfolding(crate::specs::Number::digits, crate::specs::Number::ended))]
fn only_digits(s: &[u8]) -> bool
    ensures { result ≡ digits s.now }
{
    begins(s) && past_digits(s).is_empty()
}

// Tells if this is nothing, or an exponent.
#[tactic(auto, unfolding(crate::specs::Number::exponent))]
fn exponent(s: &[u8]) -> bool
    ensures { result ≡ exponent s.now }
{
    match s {
        [] => true,
        [b'e' | b'E', after @ ..] => only_digits(past_sign(after)),
        _ => false,
    }
}

// Answers the number that a spelling is, if it is one.
#[tactic(auto, unfolding(crate::specs::Number::number_of, crate::specs::Number::digits, crate::specs::Number::ended))]
pub fn number_of(s: &[u8]) -> Option<Number>
    ensures { result ≡ number_of s.now }
{
    if !begins(s) {
        return None;
    }
    let run = digits(s);
    if run.rest.is_empty() {
        return Some(Number::Integer(run.value?));
    }
    if exponent(past_fraction(run.rest)) {
        Some(Number::Float)
    } else {
        None
    }
}

// Answers the value of a spelling that is digits only and an Integer; `None` says nothing.
pub fn digits_only(s: &[u8]) -> Option<u64>
    ensures { IfSome result (λ n. number_of s.now ≡ Some (Number.Integer n)) }
{
    if s.is_empty() {
        return None;
    }
    let run = digits(s);
    if run.rest.is_empty() { run.value } else { None }
}

// The numbers of a line: decimal, with `-` before a number that stands for its two's complement, or hexadecimal after `0x`.
use crate::scan::Words;

// Why a word is not taken as a number.
#[derive(Clone, Copy)]
pub enum NumberError {
    TooLarge,
    NotNumber,
}

// The first word of a line that is not taken, and why.
#[derive(Clone, Copy)]
pub struct WrongWord<'a> {
    pub word: &'a [u8],
    pub why: NumberError,
}

// Answers what a byte counts as a digit; hexadecimal digits are small letters.
fn digit(b: u8, radix: u64) -> Option<u64> {
    let d = match b {
        b'0'..=b'9' => b - b'0',
        b'a'..=b'f' => b - b'a' + 10,
        _ => return None,
    };
    Some(u64::from(d)).filter(|d| *d < radix)
}

// Reads a word of digits, at least one. Where a byte is no digit, the word is no number, and not one that is too large.
fn number_of_digits(word: &[u8], radix: u64) -> Result<u64, NumberError> {
    let [first, rest @ ..] = word else {
        return Err(NumberError::NotNumber);
    };
    let mut number = Some(digit(*first, radix).ok_or(NumberError::NotNumber)?);
    for b in rest {
        let d = digit(*b, radix).ok_or(NumberError::NotNumber)?;
        number = number.and_then(|n| n.checked_mul(radix)?.checked_add(d));
    }
    number.ok_or(NumberError::TooLarge)
}

// Answers the pattern of a number below 0, down to -2^63.
fn negated(n: u64) -> Result<u64, NumberError> {
    if n <= 1 << 63 {
        Ok(n.wrapping_neg())
    } else {
        Err(NumberError::TooLarge)
    }
}

// Reads a word as a number. Always inlined: else the answer of every word of a line goes through memory.
#[inline(always)]
fn number_of(word: &[u8]) -> Result<u64, NumberError> {
    match word {
        [b'-', digits @ ..] => negated(number_of_digits(digits, 10)?),
        [b'0', b'x', digits @ ..] => number_of_digits(digits, 16),
        _ => number_of_digits(word, 10),
    }
}

// Reads a word as a number that has to fit the type that is asked for.
fn fitting<T: TryFrom<u64, Error: Drop>>(word: &[u8]) -> Result<T, NumberError> {
    T::try_from(number_of(word)?)
        .ok()
        .ok_or(NumberError::TooLarge)
}

// Reads words as numbers: writes as many as there are places for, and answers those. It counts what it writes: a `zip` with the places would not tell how
// many were filled, and would pass over a wrong word that comes after them. Never inlined: in a long caller the loop keeps less in registers.
#[inline(never)]
pub fn numbers_of<'a, 'b, T: TryFrom<u64, Error: Drop> + Copy>(
    words: Words<'a>,
    out: &'b mut [T],
) -> Result<&'b [T], WrongWord<'a>> {
    let mut n = 0;
    for word in words {
        let number = fitting(word.bytes).map_err(|why| WrongWord {
            word: word.bytes,
            why,
        })?;
        if let Some(place) = out.get_mut(n) {
            *place = number;
            n += 1;
        }
    }
    Ok(&out[..n])
}

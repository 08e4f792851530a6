// The stored lists as numbers: a line is fields with one space between them, and a field is a decimal number or one letter.
ghost use Rattle.std.specs.Prelude.{◌≡◌, ◌==◌, ◌+◌, ◌≤◌, ◌<◌, drop, length};
ghost use Rattle.std.specs.List.{slice_split};

use rows::WIDTH;
use tokens::table::WIDTH as TOKEN_WIDTH;

// Bytes of a text, and rows of a predicate.
pub const TEXT: usize = 1024;

pub const ROWS: usize = 256;

// The fields of a line that are still to be read; nothing after the last one.
#[derive(Clone, Copy)]
pub struct Fields<'a> {
    rest: Option<&'a [u8]>,
}

// Answers a field after one more byte: a digit goes on with a number, where what does not fit wraps, and any other byte stands for itself.
fn grown(value: u64, b: u8) -> u64 {
    match b {
        b'0'..=b'9' => (value % 1844674407370955162 * 10).wrapping_add(u64::from(b - b'0')),
        _ => u64::from(b),
    }
}

impl<'a> Fields<'a> {
    ghost use Rattle.replay.specs.Fields.{left_of};

    // Answers all fields of a line.
    pub fn of(line: &'a [u8]) -> Fields<'a>
        ensures { left_of result ≡ slice_split (λ b. b == 32) line.now }
    {
        Fields { rest: Some(line) }
    }

    // Reads the next field.
    pub fn next(&mut self) -> Option<u64>
        ensures { left_of self.new ≡ drop 1 (left_of self.old) }
    {
        let rest = self.rest?;
        let mut parts = rest.splitn(2, |b| *b == b' ');
        let field = parts.next()?;
        self.rest = parts.next();
        Some(field.iter().fold(0, |value, b| grown(value, *b)))
    }

    // Reads the next field; a line that is cut short goes on with zeros, since the program has to say the same of it as it always did.
    pub fn number(&mut self) -> u64
        ensures { left_of self.new ≡ drop 1 (left_of self.old) }
    {
        self.next().unwrap_or(0)
    }

    // Reads a count of at most `most`.
    pub fn count(&mut self, most: usize) -> usize
        ensures bound { result ≤ most }
        ensures read { left_of self.new ≡ drop 1 (left_of self.old) }
    {
        (self.number() as usize).min(most)
    }

    // Reads a count of parts and their numbers, `width` of them a part, but no more parts than there are places for; answers the numbers.
    fn list<'b, T: Copy + Drop, F: Fn(u64) -> T>(
        &mut self,
        out: &'b mut [T],
        width: usize,
        of: F,
    ) -> &'b [T]
        requires width { 0 < width }
        requires of { F.IsAlwaysCallable of }
        ensures read { left_of self.new ≡ drop (1 + length result.now) (left_of self.old) }
        ensures within { length result.now ≤ length out.old }
    {
        let count = self.count(out.len() / width) * width;
        let part = &mut out[..count];
        for x in part.iter_mut() {
            *x = of(self.number());
        }
        part
    }

    // Reads a text.
    pub fn text<'b>(&mut self, out: &'b mut [u8]) -> &'b [u8]
        ensures { left_of self.new ≡ drop (1 + length result.now) (left_of self.old) }
    {
        self.list(out, 1, |n| (n % 256) as u8)
    }

    // Reads tokens.
    pub fn tokens<'b>(&mut self, out: &'b mut [u32]) -> &'b [u32]
        ensures { left_of self.new ≡ drop (1 + length result.now) (left_of self.old) }
    {
        self.list(out, TOKEN_WIDTH, |n| (n % 4294967296) as u32)
    }

    // Reads rows.
    pub fn rows<'b>(&mut self, out: &'b mut [u64]) -> &'b [u64]
        ensures { left_of self.new ≡ drop (1 + length result.now) (left_of self.old) }
    {
        self.list(out, WIDTH, |n| n)
    }

    // Tells if the next fields are these numbers; reads them as far as they are.
    pub fn are<T: Copy + Drop>(&mut self, numbers: &[T]) -> bool
    where
        u64: From<T>,
    {
        numbers.iter().all(|x| u64::from(*x) == self.number())
    }

    // Tells if every field was read.
    pub fn at_end(&self) -> bool {
        self.rest.is_none()
    }
}

// Where the words of a line lie: a word is what stands between blanks.
ghost use Rattle.std.specs.Prelude.{◌≡◌, ◌==◌, ◌||◌, ◌↔◌, ◌⊎◌, IsTrue, ◌-◌, ◌≤◌, find, length, min, not};
ghost use Rattle.std.specs.Iterator.{at_most};

// Tells if a byte separates words.
fn is_blank(b: u8) -> bool
    ensures { IsTrue result ↔ (b ≡ 32) ⊎ (b ≡ 9) ⊎ (b ≡ 13) }
{
    matches!(b, b' ' | b'\t' | b'\r')
}

// Answers the first byte of a line that is no blank: that of its first word.
pub fn first_byte(line: &[u8]) -> Option<u8>
    ensures { result ≡ find (λ b. not (b == 32 || b == 9 || b == 13)) line.now }
{
    line.iter().copied().find(|b| !is_blank(*b))
}

// A word, and what stands before it on its line.
#[derive(Clone, Copy)]
pub struct Word<'a> {
    pub before: &'a [u8],
    pub bytes: &'a [u8],
}

// The words of a line that come after its first `at` bytes.
#[derive(Clone, Copy)]
pub struct Words<'a> {
    line: &'a [u8],
    at: usize,
    ghost within: { at ≤ length line.now },
}

impl<'a> Words<'a> {
    ghost use Rattle.lines.specs.Words.{line_of, read_of};

    // Starts with the first word of a line.
    pub fn of(line: &'a [u8]) -> Words<'a>
        ensures line { line_of result ≡ line.now }
        ensures read { read_of result ≡ 0 }
    {
        Words { line, at: 0 }
    }

    // Starts with the first word after so many bytes of a line; there is none, if the line is no longer.
    pub fn after(line: &'a [u8], at: usize) -> Words<'a>
        ensures line { line_of result ≡ line.now }
        ensures read { read_of result ≡ min at (length line.now) }
    {
        Words {
            line,
            at: at.min(line.len()),
        }
    }

    // Answers what stands before word n, counted from 0, or up to the end of the last word where there are fewer.
    pub fn before(mut self, n: usize) -> &'a [u8]
        ensures { length result.now ≤ length (line_of self.entry) }
    {
        match self.nth(n) {
            Some(word) => word.before,
            None => &self.line[..self.at],
        }
    }
}

impl<'a> Iterator for Words<'a> {
    ghost use Rattle.lines.specs.Words.{words_steps};

    type Item = Word<'a>;

    ghost next_gives = { words_steps };

    ghost remaining = { λ s. at_most (length s.line.now - s.at) };

    #[tactic(auto, using(crate::proofs::Places::cut_in_two))]
    fn next(&mut self) -> Option<Word<'a>> {
        let line = self.line;
        let start = self.at + line[self.at..].iter().position(|b| !is_blank(*b))?;
        let (before, from_word) = line.split_at(start);
        let ends = from_word.iter().position(|b| is_blank(*b));
        let length = ends.unwrap_or(from_word.len());
        self.at = start + length;
        Some(Word {
            before,
            bytes: &from_word[..length],
        })
    }
}

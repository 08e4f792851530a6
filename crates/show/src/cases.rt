// A case: an expression that is parsed, or a predicate that is split.
use drawing::clauses::print_predicate;
use drawing::names::print_refusal;
use drawing::out::{print_blanks_for, print_count, print_line_number, print_quoted};
use drawing::tree::{Drawing, Family};
use limits::{ROWS_MAX, TOKENS_MAX};
use lines::numbers::{NumberError, WrongWord, numbers_of};
use lines::scan::Words;
use lines::words::{first_doubt, tokens_of};
use refusals::{Refusal, Refused};
use rows::WIDTH;
use std::io;
use std::io::Write;
use tokens::table::WIDTH as TOKEN_WIDTH;

// Each one more than the library takes, so that it is the library that refuses what is too long.
const TOKENS: usize = TOKENS_MAX + 1;

const ROWS: usize = ROWS_MAX + 1;

// Prints what a line has wrong.
pub fn print_wrong(out: &mut impl Write, number: u64, what: &str) -> io::Result<()> {
    print_line_number(out, number)?;
    writeln!(out, "{what}")
}

// Prints how many rows there are, and draws their tree.
fn draw_counted(out: &mut impl Write, drawing: Drawing) -> io::Result<()> {
    write!(out, "  ")?;
    print_count(out, rows::count(drawing.rows), b"row")?;
    writeln!(out)?;
    drawing.draw(out)
}

// The case of a line: the number of the line, the text, and the words that tokens or rows are typed with.
#[derive(Clone, Copy)]
struct Case<'a> {
    number: u64,
    text: &'a [u8],
    words: Words<'a>,
}

impl<'a> Case<'a> {
    // Prints a refusal, with a caret below the first word of its token or row, each of which is so many words; or right after the last word where there are
    // fewer. The quotes of a String are part of its word. What is too long has nothing to point at.
    fn print_refused(
        self,
        out: &mut impl Write,
        words_each: usize,
        refused: Refused,
    ) -> io::Result<()> {
        if refused.why != Refusal::TooLong {
            let word = refused.place.saturating_mul(words_each);
            print_blanks_for(out, self.words.before(word))?;
            writeln!(out, "^")?;
        }
        print_refusal(out, self.number, refused)
    }

    // Prints of a word among the numbers that it cannot be taken, and why. A number has so many bits at most.
    fn print_wrong_word(self, out: &mut impl Write, wrong: WrongWord, bits: u32) -> io::Result<()> {
        print_line_number(out, self.number)?;
        match wrong.why {
            NumberError::TooLarge => write!(out, "too large for {bits} bits: ")?,
            NumberError::NotNumber => write!(out, "not a number: ")?,
        }
        print_quoted(out, wrong.word)?;
        writeln!(out)
    }

    // Prints of the first name that holds a sign or a quote that it is a name.
    fn print_doubt(self, out: &mut impl Write) -> io::Result<()> {
        let Some(word) = first_doubt(self.words) else {
            return Ok(());
        };
        print_line_number(out, self.number)?;
        print_quoted(out, word)?;
        writeln!(
            out,
            " is one name here; blanks part words and signs, and a String holds none"
        )
    }

    // Parses a token table, and prints what comes of it. Each token is so many words.
    fn show_parse(self, out: &mut impl Write, words_each: usize, tokens: &[u32]) -> io::Result<()> {
        let mut rows = [0u64; ROWS_MAX * WIDTH];
        match parser::parse(self.text, tokens, &mut rows) {
            Ok(n) => {
                let drawing = Drawing {
                    family: Family::Syntax { tokens },
                    text: self.text,
                    rows: &rows[..n.min(ROWS_MAX) * WIDTH],
                };
                draw_counted(out, drawing)
            }
            Err(refused) => self.print_refused(out, words_each, refused),
        }
    }

    // Checks a predicate, and prints its tree and its clauses or the refusal.
    fn show_predicate(self, out: &mut impl Write, rows: &'a [u64]) -> io::Result<()> {
        match predicate::check(self.text, rows) {
            Ok(_) => {
                let drawing = Drawing {
                    family: Family::Predicate,
                    text: self.text,
                    rows,
                };
                draw_counted(out, drawing)?;
                print_predicate(out, self.text, rows, self.number)
            }
            Err(refused) => self.print_refused(out, WIDTH, refused),
        }
    }

    // Shows the words as an expression.
    fn show_words(self, out: &mut impl Write) -> io::Result<()> {
        let mut table = [0u32; TOKENS * TOKEN_WIDTH];
        let tokens = tokens_of(self.words, &mut table);
        self.show_parse(out, 1, tokens)?;
        self.print_doubt(out)
    }

    // Shows the numbers as a token table.
    fn show_tokens(self, out: &mut impl Write) -> io::Result<()> {
        let mut table = [0u32; TOKENS * TOKEN_WIDTH];
        match numbers_of(self.words, &mut table) {
            Ok(tokens) => self.show_parse(out, TOKEN_WIDTH, tokens),
            Err(wrong) => self.print_wrong_word(out, wrong, u32::BITS),
        }
    }

    // Shows the numbers as a predicate's rows.
    fn show_rows(self, out: &mut impl Write) -> io::Result<()> {
        let mut rows = [0u64; ROWS * WIDTH];
        match numbers_of(self.words, &mut rows) {
            Ok(rows) => self.show_predicate(out, rows),
            Err(wrong) => self.print_wrong_word(out, wrong, u64::BITS),
        }
    }

    // Shows what comes after the text: the word `rows` or `tokens`, and numbers.
    fn show_after_text(mut self, out: &mut impl Write) -> io::Result<()> {
        match self.words.next().map(|word| word.bytes) {
            Some(b"rows") => self.show_rows(out),
            Some(b"tokens") => self.show_tokens(out),
            _ => print_wrong(out, self.number, "after the text comes: rows or tokens"),
        }
    }
}

// Shows a text between the first and the last quote of a line, and then numbers.
fn show_text(out: &mut impl Write, line: &[u8], number: u64) -> io::Result<()> {
    let open = line.iter().position(|b| *b == b'\'');
    let close = line.iter().rposition(|b| *b == b'\'');
    match (open, close) {
        (Some(open), Some(close)) if open < close => {
            let text = &line[open + 1..close];
            let words = Words::after(line, close + 1);
            let case = Case {
                number,
                text,
                words,
            };
            case.show_after_text(out)
        }
        _ => print_wrong(out, number, "after text comes a text in single quotes"),
    }
}

// Shows one line, by its first word.
pub fn show_case(out: &mut impl Write, line: &[u8], number: u64) -> io::Result<()> {
    let mut words = Words::of(line);
    let first = words.next().map(|word| word.bytes);
    let text = b"";
    let case = Case {
        number,
        text,
        words,
    };
    match first {
        Some(b"parse") => Case { text: line, ..case }.show_words(out),
        Some(b"rows") => case.show_rows(out),
        Some(b"tokens") => case.show_tokens(out),
        Some(b"text") => show_text(out, line, number),
        _ => print_wrong(
            out,
            number,
            "a case starts with parse, rows, tokens or text",
        ),
    }
}

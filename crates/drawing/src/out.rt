// Printing: writing to what the caller passes, as standard output. Parts of a lent text are written as bytes, since they need not be UTF-8.
use std::io;
use std::io::Write;

// Prints bytes, with something before and after them.
pub fn print_between(out: &mut impl Write, before: &str, s: &[u8], after: &str) -> io::Result<()> {
    write!(out, "{before}")?;
    out.write_all(s)?;
    write!(out, "{after}")
}

// Prints which line a message is of.
pub fn print_line_number(out: &mut impl Write, number: u64) -> io::Result<()> {
    write!(out, "  line {number}: ")
}

// Answers a blank as wide as a byte is on the screen: a tab as it is, nothing for a byte that goes on with a character, and else a space.
fn blank_for(b: u8) -> &'static str {
    match b {
        b'\t' => "\t",
        128..=191 => "",
        _ => " ",
    }
}

// Prints blanks as wide as these bytes are on the screen.
pub fn print_blanks_for(out: &mut impl Write, s: &[u8]) -> io::Result<()> {
    for b in s {
        let blank = blank_for(*b);
        write!(out, "{blank}")?;
    }
    Ok(())
}

// Prints how many there are of something.
pub fn print_count(out: &mut impl Write, n: usize, what: &[u8]) -> io::Result<()> {
    let plural = if n == 1 { "" } else { "s" };
    write!(out, "{n} ")?;
    print_between(out, "", what, plural)
}

// Prints bytes between quotes.
pub fn print_quoted(out: &mut impl Write, s: &[u8]) -> io::Result<()> {
    print_between(out, "'", s, "'")
}

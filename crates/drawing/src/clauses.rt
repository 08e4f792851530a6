// The clauses of a predicate, each with the values that it looks for if it is a lookup.
use crate::labels::print_value;
use crate::names::print_refusal;
use crate::out::print_count;
use limits::{CLAUSES_MAX, LITERALS_MAX};
use lookup::ColumnLookup;
use splitter::Listed;
use std::io;
use std::io::Write;

// A predicate: its rows, and the text that its Strings are parts of.
#[derive(Clone, Copy)]
struct Predicate<'a> {
    text: &'a [u8],
    rows: &'a [u64],
}

impl Predicate<'_> {
    // Prints the values that a clause looks for.
    fn print_values(self, out: &mut impl Write, clause: usize, count: usize) -> io::Result<()> {
        if count == 0 {
            write!(out, "no values")?;
        }
        for i in 0..count {
            if 0 < i {
                write!(out, ", ")?;
            }
            match lookup::value_at(self.text, self.rows, clause, i) {
                Ok(v) => print_value(out, self.text, v)?,
                Err(_) => write!(out, "?")?,
            }
        }
        Ok(())
    }

    // Prints what a clause looks for.
    fn print_lookup(self, out: &mut impl Write, clause: usize) -> io::Result<()> {
        match lookup::lookup(self.text, self.rows, clause) {
            Ok(ColumnLookup { column, values }) => {
                write!(out, "    lookup on column {column}: ")?;
                self.print_values(out, clause, values)?;
                writeln!(out)
            }
            Err(_) => writeln!(out, "    no lookup"),
        }
    }

    // Prints each clause on a line, and below it what it looks for. `replay` goes through the ends alike: of the crates below both only the splitter
    // has such lists, and it hands out its entries alone.
    fn print_clauses(self, out: &mut impl Write, literals: &[u32], ends: &[u32]) -> io::Result<()> {
        let mut from = 0;
        for (k, end) in ends.iter().enumerate() {
            let to = *end as usize;
            write!(out, "  clause {k}: ")?;
            print_literals(out, literals.get(from..to).unwrap_or(&[]))?;
            self.print_lookup(out, k)?;
            from = to;
        }
        Ok(())
    }
}

// Prints the literals of a clause, each an atom's row, plain or negated, with an OR between them.
fn print_literals(out: &mut impl Write, literals: &[u32]) -> io::Result<()> {
    for (i, literal) in literals.iter().enumerate() {
        let or = if i == 0 { "" } else { " OR " };
        let not = if literal % 2 == 0 { "" } else { "NOT " };
        let row = literal / 2;
        write!(out, "{or}{not}r{row}")?;
    }
    writeln!(out)
}

// Prints how many clauses and literals there are.
fn print_counts(out: &mut impl Write, listed: Listed) -> io::Result<()> {
    write!(out, "  ")?;
    print_count(out, listed.clauses, b"clause")?;
    write!(out, ", ")?;
    print_count(out, listed.literals, b"literal")?;
    writeln!(out)
}

// Prints the clauses of these rows, which stand in this line, or the refusal to split them.
pub fn print_predicate(
    out: &mut impl Write,
    text: &[u8],
    rows: &[u64],
    line: u64,
) -> io::Result<()> {
    let mut literals = [0u32; LITERALS_MAX as usize];
    let mut ends = [0u32; CLAUSES_MAX as usize];
    match splitter::split(text, rows, &mut literals, &mut ends) {
        Ok(listed) => {
            print_counts(out, listed)?;
            let ends = ends.get(..listed.clauses).unwrap_or(&[]);
            Predicate { text, rows }.print_clauses(out, &literals, ends)
        }
        Err(refused) => print_refusal(out, line, refused),
    }
}

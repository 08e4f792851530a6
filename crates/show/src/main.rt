// Shows what the library says of each case in a file, or in standard input: a tree, clauses and lookups, or a refusal.
// README.md describes the form of a case.
#![tactic(auto)]

use cases::{print_wrong, show_case};
use lines::input::{LineReader, TooLong};
use lines::scan::first_byte;
use std::env::FillError;
use std::fmt::Display;
use std::io::{Read, Write};
use std::process::ExitCode;
use std::rt::{Env, Files};
use std::{fs, io};

mod cases;

// Copies a line, and prints below it what there is to say of it if it is a case. Blanks before a comment are passed over, as before a case.
fn show_line(out: &mut impl Write, line: &[u8], number: u64) -> io::Result<()> {
    let Some(first) = first_byte(line) else {
        return Ok(());
    };
    out.write_all(line)?;
    if first != b'#' {
        writeln!(out)?;
        show_case(out, line, number)?;
    }
    writeln!(out)
}

// Shows a line, or says that it is too long.
fn show_read(out: &mut impl Write, line: Result<&[u8], TooLong>, number: u64) -> io::Result<()> {
    match line {
        Ok(line) => show_line(out, line, number),
        Err(TooLong) => {
            print_wrong(out, number, "longer than 65536 bytes, and left out")?;
            writeln!(out)
        }
    }
}

// What could not be read or written, and why.
#[derive(Clone, Copy)]
struct Failure<'a> {
    what: &'a str,
    why: io::Error,
}

// Shows every line of what has this name. Where a read or a write fails it returns at once; a line that was cut short is left out. The loop ends where the
// input does, which no measure could tell beforehand: so it counts.
fn show_all<'a>(
    lines: &mut LineReader<impl Read>,
    out: &mut impl Write,
    name: &'a str,
) -> Result<(), Failure<'a>> {
    let mut places = [0u8; 65536];
    for number in 1..=u64::MAX {
        let read = lines.read_line(&mut places);
        let Some(line) = read.map_err(|why| Failure { what: name, why })? else {
            break;
        };
        show_read(out, line, number).map_err(|why| Failure {
            what: "standard output",
            why,
        })?;
    }
    Ok(())
}

// Shows every line, and says on standard error if a read or a write failed.
fn show(rt: &(impl Print + Eprint), reader: impl Read + Drop, name: &str) -> ExitCode {
    match show_all(&mut LineReader::new(reader), &mut io::writer(rt), name) {
        Ok(()) => ExitCode::SUCCESS,
        Err(Failure { what, why }) => fail(rt, what, why),
    }
}

// Shows a file.
fn show_file(rt: &(impl Files + Print + Eprint), path: &str) -> ExitCode {
    match fs::open(rt, path) {
        Ok(file) => show(rt, file, path),
        Err(why) => fail(rt, path, why),
    }
}

// Shows the file of this name, which has to be UTF-8.
fn show_path(rt: &(impl Files + Print + Eprint), path: &[u8]) -> ExitCode {
    match str::from_utf8(path) {
        Ok(path) => show_file(rt, path),
        Err(why) => fail(rt, "the name of the file", why),
    }
}

// Shows the file that the first argument names.
fn show_named(rt: &(impl Env + Files + Print + Eprint)) -> ExitCode {
    let mut path = [0u8; 4096];
    match rt.arg(1, &mut path) {
        Ok(n) => show_path(rt, &path[..n]),
        Err(_) => fail(rt, "the name of the file", "File name too long"),
    }
}

// Tells if there is an argument i. Its bytes are not looked at.
fn has_word(rt: &impl Env, i: usize) -> bool {
    let mut none = [0u8; 0];
    !matches!(rt.arg(i, &mut none), Err(FillError::NotPresent))
}

// Writes a message to standard error.
fn warn(rt: &impl Eprint, what: impl Display + Drop) {
    let _ = rt.eprintln(what);
}

// Says on standard error what failed and why; answers the status of a program that failed.
fn fail(rt: &impl Eprint, what: &str, why: impl Display + Drop) -> ExitCode {
    warn(rt, format_args!("{what}: {why}"));
    ExitCode::FAILURE
}

fn main(rt: HostRuntime) -> ExitCode {
    if !has_word(&rt, 1) {
        return show(&rt, rt.stdin(), "standard input");
    }
    if has_word(&rt, 2) {
        warn(
            &rt,
            "show takes one file: the first is shown, the others are not",
        );
    }
    show_named(&rt)
}

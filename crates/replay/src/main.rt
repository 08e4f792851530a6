// Replays the stored answers of the original (the lists in data/): says how many cases each list has, how many of them the library answers otherwise, and
// the line of the first that it does.
#![tactic(auto)]

use fields::Fields;
use std::io::Read;
use std::process::ExitCode;
use std::rt::Files;
use std::{fs, io};

mod fields;
mod lent;
mod looking;
mod reading;
mod splitting;

ghost use Rattle.std.specs.Prelude.{◌+◌, ◌≤◌, length, IfOk};

// Bytes of a list, and fields of a line.
const LIST: usize = 131072;

const FIELDS: usize = 2048;

// The letters that a case begins with.
const LOOK: u64 = b'L' as u64;

const PARSE: u64 = b'P' as u64;

const SPLIT: u64 = b'S' as u64;

// The lines so far, how many of them differ, and the first that does.
#[derive(Clone, Copy)]
pub struct Tally {
    lines: u64,
    wrong: u64,
    first: Option<u64>,
    ghost at_most: { wrong ≤ lines },
}

impl Tally {
    // Counts one more line.
    fn count(&mut self, right: bool)
        ensures { self.new.lines ≤ self.old.lines + 1 }
    {
        self.lines = self.lines.saturating_add(1);
        if !right {
            self.wrong = self.wrong.saturating_add(1);
            self.first = self.first.or(Some(self.lines));
        }
    }
}

// What could not be read or written, and why.
#[derive(Clone, Copy)]
struct Failure<'a> {
    what: &'a str,
    why: io::Error,
}

// Tells if the library answers what the fields of a line say.
fn answered_as_stored(fields: &mut Fields) -> bool {
    match fields.number() {
        LOOK => looking::look_case(fields),
        PARSE => reading::parse_case(fields),
        SPLIT => splitting::split_case(fields),
        _ => false,
    }
}

// Tells if the library answers what this line says. A line with more fields than FIELDS counts as wrong.
fn line_right(line: &[u8]) -> bool {
    let spaces = line.iter().filter(|b| **b == b' ').count();
    spaces < FIELDS && answered_as_stored(&mut Fields::of(line))
}

// Replays every line of a list.
fn replayed(list: &[u8]) -> Tally {
    let mut tally = Tally {
        lines: 0,
        wrong: 0,
        first: None,
    };
    for line in list.split_inclusive(|b| *b == b'\n') {
        tally.count(line_right(line.strip_suffix(b"\n").unwrap_or(line)));
    }
    tally
}

// Prints what came of a list.
fn report(rt: &impl Print, name: &str, tally: &Tally) -> io::Result<()> {
    print!(rt; "{name}: {} cases, {} differ", tally.lines, tally.wrong)?;
    if let Some(line) = tally.first {
        print!(rt; ", the first in line {line}")?;
    }
    println!(rt)
}

// Reads what there is, as much of it as there are places for; answers how many bytes these are. It goes by what each read gave, so no counted loop would do.
fn read_full(file: &mut impl Read, list: &mut [u8]) -> io::Result<usize>
    ensures { IfOk result (λ n. n ≤ length list.new) }
{
    let mut at = 0;
    while at < list.len() {
        let n = file.read(&mut list[at..])?;
        if n == 0 {
            return Ok(at);
        }
        at += n;
    }
    Ok(at)
}

// Reads a list by its name.
fn read_list(rt: &impl Files, name: &str, list: &mut [u8]) -> io::Result<usize>
    ensures { IfOk result (λ n. n ≤ length list.new) }
{
    let mut file = fs::open(rt, name)?;
    read_full(&mut file, list)
}

// Replays a list by its name, and prints what came of it.
fn replay<'a>(rt: &(impl Files + Print), name: &'a str) -> Result<(), Failure<'a>> {
    let mut list = [0u8; LIST];
    let n = read_list(rt, name, &mut list).map_err(|why| Failure { what: name, why })?;
    report(rt, name, &replayed(&list[..n])).map_err(|why| Failure {
        what: "standard output",
        why,
    })
}

fn main(rt: HostRuntime) -> ExitCode {
    let mut status = ExitCode::SUCCESS;
    for name in ["parse.txt", "split.txt"] {
        if let Err(Failure { what, why }) = replay(&rt, name) {
            let _ = eprintln!(rt; "{what}: {why}");
            status = ExitCode::FAILURE;
        }
    }
    status
}

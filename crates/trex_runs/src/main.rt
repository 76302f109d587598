//! Whole runs as lines of data. A line of standard input with two tabs is a case: a name, command lines, and their input. What the top call leaves
//! of them is printed beside the name: the status, the notes and the output. A line without tabs is printed as it stands.
//!
//! Command lines stand with `, ` between them, and all leave the same: one line is printed for each that leaves something else than the one before
//! it. In `a | b` the command b reads what a wrote. An input is a text, or `hex` and digits, or `lines` and
//! lines with ` // ` between them, or `fails` for a source that fails at its first call.
#![tactic(auto)]

mod memory;
#[cfg(test)]
mod tests;
mod text;

use crate::memory::{Ends, run};
use crate::text::shown;
use std::alloc::Global;
use std::io::{BufRead, BufReader};
use std::test::Fail;
use std::thread::Threads;
use trex_crew::Open;

/// A line of a name, command lines, and the input of the first command of each.
#[derive(Clone, Copy)]
struct Case<'a> {
    name: &'a str,
    lines: &'a str,
    input: &'a str,
}

/// How the commands of a case run: the most bytes of a call, and the number of gates. A case's first line runs in all these ways, the others in the
/// first of them.
const WAYS: [(usize, usize); 6] = [(10, 2), (1, 2), (1_000, 2), (10, 0), (10, 1), (10, 8)];

fn main(rt: HostRuntime) -> Result<(), Fail> {
    let alloc = rt.alloc();
    for line in BufReader::new(alloc, rt.stdin())?.lines(alloc) {
        let line = line?;
        match case_of(line.as_str()) {
            Some(case) => print_case(&rt, alloc, &case)?,
            None => println!(rt; "{line}")?,
        }
    }
    Ok(())
}

/// The case that a line is.
fn case_of(line: &str) -> Option<Case<'_>> {
    let (name, rest) = line.split_once('\t')?;
    let (lines, input) = rest.split_once('\t')?;
    Some(Case { name, lines, input })
}

/// Prints what a case leaves, each time that it isn't what was left before.
fn print_case<R: Print + Threads + Sync>(
    rt: &R,
    alloc: Global,
    case: &Case<'_>,
) -> Result<(), Fail> {
    let Case { name, lines, input } = *case;
    let mut gates = [Open; 8];
    let mut last = String::new(alloc);
    for (place, commands) in lines.split(", ").enumerate() {
        let ways = if place == 0 { &WAYS[..] } else { &WAYS[..1] };
        for &(per_call, open) in ways {
            let ends = Ends {
                per_call,
                failing_read: u64::from(input == "fails"),
                ..Ends::WIDE
            };
            let gates = &mut gates[..open.min(8)];
            let left = left_by(rt, alloc, commands, input, &ends, gates)?;
            if left.as_str() != last.as_str() {
                println!(rt; "{name}\t{left}")?;
                last = left;
            }
        }
    }
    Ok(())
}

/// What the last of some commands leaves, of which each reads what the one before it wrote.
fn left_by<R: Threads + Sync>(
    rt: &R,
    alloc: Global,
    commands: &str,
    input: &str,
    ends: &Ends,
    gates: &mut [Open],
) -> Result<String, Fail> {
    let mut bytes = bytes_of(alloc, input)?;
    let mut left = String::new(alloc);
    for command in commands.split(" | ") {
        let ran = run(rt, alloc, command, bytes.as_slice(), ends, gates)?;
        left = shown(alloc, &ran)?;
        bytes = Vec::from_slice(alloc, ran.out.bytes())?;
    }
    Ok(left)
}

/// Lines with a line feed between them, where ` // ` stands between them in a text.
fn joined_lines(alloc: Global, text: &str) -> Result<Vec<u8>, Fail> {
    let mut bytes = Vec::new(alloc);
    for (place, line) in text.split(" // ").enumerate() {
        if place > 0 {
            bytes.push(b'\n')?;
        }
        bytes.extend_from_slice(line.as_bytes())?;
    }
    Ok(bytes)
}

/// The bytes of an input: those of `hex` and pairs of digits, those of `lines` and lines, or the text's own.
fn bytes_of(alloc: Global, input: &str) -> Result<Vec<u8>, Fail> {
    if let Some(text) = input.strip_prefix("lines ") {
        return joined_lines(alloc, text);
    }
    let Some(digits) = input.strip_prefix("hex") else {
        return Ok(Vec::from_slice(alloc, input.as_bytes())?);
    };
    let mut bytes = Vec::new(alloc);
    for part in digits.split_ascii_whitespace() {
        bytes.extend_from_slice(hex::decode(alloc, part)?.as_slice())?;
    }
    Ok(bytes)
}

//! Imports as lines of data. A line of standard input with a tab is a case: a name and a capture. What the import answers, and the text that it
//! writes, are printed beside the name. A line without a tab is printed as it stands.
//!
//! A capture stands as hexadecimal digits, in parts with spaces between them; a part that begins with a number and `x` stands so many times. A text
//! of more than 1,000 bytes is printed as its length and its MD5 digest.
#![tactic(auto)]

mod memory;
#[cfg(test)]
mod tests;

use crate::memory::{Ends, Imported, run_import};
use md5::{Digest, Md5};
use std::alloc::Global;
use std::io::{BufRead, BufReader};
use std::str;
use std::test::Fail;

/// The most bytes of a call, for each time that a case is imported.
const WAYS: [usize; 3] = [10, 1, 1_000];

/// The most bytes of a text that is printed whole.
const LONGEST_SHOWN: usize = 1_000;

fn main(rt: HostRuntime) -> Result<(), Fail> {
    let alloc = rt.alloc();
    for line in BufReader::new(alloc, rt.stdin())?.lines(alloc) {
        let line = line?;
        match line.split_once('\t') {
            Some((name, capture)) => print_case(&rt, alloc, name, capture)?,
            None => println!(rt; "{line}")?,
        }
    }
    Ok(())
}

/// Prints what a case leaves, each time that it isn't what was left before.
fn print_case(rt: &impl Print, alloc: Global, name: &str, capture: &str) -> Result<(), Fail> {
    let bytes = bytes_of(alloc, capture)?;
    let mut last = String::new(alloc);
    for &per_call in &WAYS {
        let ends = Ends {
            per_call,
            ..Ends::WIDE
        };
        let left = shown(alloc, &run_import(alloc, &bytes, &ends)?)?;
        if left.as_str() != last.as_str() {
            println!(rt; "{name}\t{left}")?;
            last = left;
        }
    }
    Ok(())
}

/// The bytes of a capture that stands as digits.
fn bytes_of(alloc: Global, capture: &str) -> Result<Vec<u8>, Fail> {
    let mut bytes = Vec::new(alloc);
    for part in capture.split_ascii_whitespace() {
        let (times, digits) = match part.split_once('x') {
            Some((times, digits)) => (times.parse::<u16>()?, digits),
            None => (1, part),
        };
        let part = hex::decode(alloc, digits)?;
        for _ in 0..times {
            bytes.extend_from_slice(&part)?;
        }
    }
    Ok(bytes)
}

/// The answer and the text, with a tab between them.
fn shown(alloc: Global, imported: &Imported) -> Result<String, Fail> {
    let answer = imported.answer;
    let text = imported.out.bytes();
    if text.len() > LONGEST_SHOWN {
        let length = text.len();
        let digest = hex::encode(alloc, Md5::digest(text))?;
        return Ok(format!(in alloc; "{answer:?}\t{length} bytes {digest}")?);
    }
    let text = str::from_utf8(text)?;
    Ok(format!(in alloc; "{answer:?}\t{text}")?)
}

//! Reads cases from standard input, one a line, and writes beside each case's name the verdict on its profile.
#![tactic(auto)]

mod answer;
mod stop;
#[cfg(test)]
mod tests;

use answer::answer;
use std::alloc::Global;
use stop::Stop;
use trex_io::{Sink, StdSink, StdSource, read_all};

/// The greatest number of bytes of all cases.
const LONGEST_INPUT: usize = 1_048_576;

/// Answers each line; the last ends with a line feed.
fn answer_all<O: Sink>(alloc: Global, out: &mut O, input: &[u8]) -> Result<(), Stop> {
    let lines = input.strip_suffix(b"\n").unwrap_or(input);
    for line in lines.split(|byte| *byte == b'\n') {
        answer(alloc, out, line)?;
    }
    Ok(())
}

fn main(rt: HostRuntime) -> Result<(), Stop> {
    let mut source = StdSource::new(rt.stdin());
    let input = read_all(rt.alloc(), &mut source, LONGEST_INPUT)?;
    let mut out = StdSink::new(rt.stdout());
    answer_all(rt.alloc(), &mut out, &input)
}

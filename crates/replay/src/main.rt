//! Reads a trace from standard input, runs it over a station and prints a line for each call.

#![tactic(auto)]

use listing::listing;
use std::io::{Read, Write};

/// One byte more than the longest trace, so that a longer one is noticed and no input is read without end.
const ENOUGH: u64 = 16_385;

fn main(rt: HostRuntime) -> anyhow::Result<()> {
    let mut trace = Vec::new(rt.alloc());
    let _ = rt.stdin().take(ENOUGH).read_to_end(&mut trace)?;
    let lines = listing(rt.alloc(), trace.as_slice())?;
    rt.stdout().write_all(lines.as_slice())?;
    Ok(())
}

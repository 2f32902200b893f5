//! Replays every trace of data/ and compares the listing with the one that stands beside it.

#![tactic(auto)]

use listing::listing;
use std::fs;
use std::rt::Files;

fn main(rt: HostRuntime) -> anyhow::Result<()> {
    let names = fs::read_to_string(&rt, "names")?;
    // Two counts and no list of verdicts, which would take memory for each name.
    let (agree, all) = names
        .lines()
        .try_fold((0_usize, 0_usize), |(agree, all), name| {
            let one = usize::from(agrees(&rt, name)?);
            Ok::<_, anyhow::Error>((agree.saturating_add(one), all.saturating_add(1)))
        })?;
    println!(rt; "{agree} of {all} listings agree")?;
    Ok(())
}

/// Whether the listing of a trace is the one that stands beside it; tells where it is not.
fn agrees(rt: &(impl AllocGlobal + Files + Print), name: &str) -> anyhow::Result<bool> {
    let trace = fs::read(rt, format!(in rt.alloc(); "{name}.trace")?)?;
    let wanted = fs::read(rt, format!(in rt.alloc(); "{name}.out")?)?;
    let given = listing(rt.alloc(), trace.as_slice())?;
    let agrees = given.as_slice() == wanted.as_slice();
    if !agrees {
        println!(rt; "{name} differs")?;
    }
    Ok(agrees)
}

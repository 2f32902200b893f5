//! Hands out labels to rolling groups of holders, over the heptad, a counter and pile 4, and prints each round.

#![tactic(auto)]

use labels::LabelSystem;
use piles::Pile4;
use plain::{Counter, Heptad};
use rolling::{beats_all, held_beside, roll};
use search::{WaitingRow, head, tail};

const ROUNDS: usize = 16;

const LONG_ROUNDS: usize = 30;

fn main(rt: HostRuntime) -> anyhow::Result<()> {
    show(&rt, "heptad", &Heptad, ROUNDS)?;
    // No `?`: a refusal is printed, and the rest goes on.
    match Counter::new(3, 10) {
        Ok(counter) => show(&rt, "counter", &counter, ROUNDS)?,
        Err(refusal) => println!(rt; "counter refused {}", refusal.number())?,
    }
    show(&rt, "pile 4", &Pile4::new(), LONG_ROUNDS)
}

/// Prints the rounds of a rolling group over one system.
fn show<S: LabelSystem>(
    rt: &HostRuntime,
    name: &str,
    system: &S,
    rounds: usize,
) -> anyhow::Result<()> {
    let endless = if system.endless() {
        "endless"
    } else {
        "not endless"
    };
    println!(rt;
        "{name}: order {}, count {}, {endless}",
        system.order(),
        system.count()
    )?;
    let given = roll(rt.alloc(), system, rounds)?;
    for (round, label) in given.iter().enumerate() {
        let held = held_beside(system, &given[0..round]);
        let verdict = if beats_all(system, *label, held) {
            "beats them all"
        } else {
            "does not beat them all"
        };
        println!(rt;
            "round {}: label {label} is given, {held:?} are held, {label} {verdict}",
            round + 1
        )?;
    }
    if given.len() < rounds {
        println!(rt; "no label is left after round {}", given.len())?;
    }
    show_ends(rt, system, held_beside(system, given.as_slice()))
}

/// Prints which of the labels held is the newest, and which the oldest.
fn show_ends<S: LabelSystem>(rt: &HostRuntime, system: &S, held: &[u32]) -> anyhow::Result<()> {
    let rows: Vec<WaitingRow> = held
        .iter()
        .map(|label| WaitingRow {
            seat: 1,
            label: Some(*label),
        })
        .collect(rt.alloc())?;
    let newest = head(system, rows.as_slice()).and_then(|place| held.get(place));
    let oldest = tail(system, rows.as_slice()).and_then(|place| held.get(place));
    if let (Some(newest), Some(oldest)) = (newest, oldest) {
        println!(rt; "of {held:?} the newest is {newest} and the oldest is {oldest}")?;
    }
    Ok(())
}

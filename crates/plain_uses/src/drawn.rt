//! Drawn calls over two disks.

use crate::draws::Draws;
use crate::pair::{Pair, Plan};
use crate::steps::{Step, assert_step};
use crate::tapes::tapes;
use std::alloc::Global;
use std::process::Abort;
use std::test::Fail;
use voice_units::Graces;

// How many seeds there are for each disk, and how many calls are drawn from each.
const SEEDS: u64 = 98;

const CALLS: usize = 40;

const GRACES: Graces = Graces {
    common: 30,
    held: 10,
    until: 20,
    listed: 40,
};

// A disk that is full now and then.
const SMALL: Plan = Plan {
    block: 8,
    blocks: 12,
    area: 1 << 19,
    graces: GRACES,
};

// One with room for long recordings.
const LARGE: Plan = Plan {
    block: 64,
    blocks: 200,
    area: 1 << 18,
    graces: GRACES,
};

// Whether a step makes a rope of a recording in parts.
fn is_made(step: Step, answered: &str) -> bool {
    matches!(step, Step::End(_)) && answered.starts_with("rope")
}

// Asserts that the calls of a seed come to the same, and gives how many recordings in parts become ropes.
fn assert_calls(
    rt: &impl Abort,
    alloc: Global,
    pair: &mut Pair,
    seed: u64,
    block: u32,
) -> Result<u32, Fail> {
    let name = format!(in alloc; "blocks of {block}, seed {seed}")?;
    let mut draws = Draws::new(seed, block);
    let mut made = 0u32;
    for call in 0..CALLS {
        let step = draws.step(pair)?;
        let answered = assert_step(rt, alloc, pair, (&name, call), step)?;
        if is_made(step, &answered) {
            made = made.saturating_add(1);
        }
    }
    Ok(made)
}

// Asserts it over a new disk.
fn assert_seed(rt: &impl Abort, alloc: Global, plan: Plan, seed: u64) -> Result<u32, Fail> {
    let mut pair = Pair::open(alloc, plan, tapes(alloc)?)?;
    let told = assert_calls(rt, alloc, &mut pair, seed, plan.block);
    pair.close();
    told
}

// Asserts it of each seed, and that there are enough recordings in parts, so that the draws are worth their time.
fn assert_seeds(rt: &impl Abort, alloc: Global, plan: Plan) -> Result<(), Fail> {
    let mut made = 0u32;
    for seed in 0..SEEDS {
        made = made.saturating_add(assert_seed(rt, alloc, plan, seed)?);
    }
    assert!(rt; made > 60, "{made} recordings in parts");
    Ok(())
}

#[test]
fn drawn_calls_over_a_small_disk(rt: HostRuntime) -> Result<(), Fail> {
    assert_seeds(&rt, rt.alloc(), SMALL)
}

#[test]
fn drawn_calls_over_a_large_disk(rt: HostRuntime) -> Result<(), Fail> {
    assert_seeds(&rt, rt.alloc(), LARGE)
}

//! What is recorded.

use std::alloc::Global;
use std::test::Fail;
use voice_model::Tapes;

/// The tapes, by their numbers: 20 letters; 64 samples that all differ; and 10,000 of talk with silences.
pub const LETTERS: u32 = 0;

pub const SIGNS: u32 = 1;

pub const TALK: u32 = 2;

const NOTED: &[&[u8]] = &[
    b"ABCDEFGHIJKLMNOPQRST",
    b"ABCDEFGHIJKLMNOPQRSTUVWXYZabcdefghijklmnopqrstuvwxyz0123456789+/",
];

// How many samples are loud, and how many behind them are quiet, by turns.
const RUNS: &[(usize, usize)] = &[(480, 4160), (160, 3840), (200, 1160)];

// The talk, whose samples are as loud as their place modulo 101, or modulo 7.
fn talk(alloc: Global) -> Result<Vec<u8>, Fail> {
    let mut samples = Vec::new(alloc);
    for &(loud, quiet) in RUNS {
        for k in 0..loud {
            samples.push(0xff - (k % 101) as u8)?;
        }
        for k in 0..quiet {
            samples.push(0xff - (k % 7) as u8)?;
        }
    }
    Ok(samples)
}

/// All tapes.
pub fn tapes(alloc: Global) -> Result<Tapes, Fail> {
    let mut tapes = Vec::new(alloc);
    for samples in NOTED {
        tapes.push(samples.to_vec(alloc)?)?;
    }
    tapes.push(talk(alloc)?)?;
    Ok(Tapes::new(tapes))
}

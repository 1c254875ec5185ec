//! Tests of the store beside the plain evaluator: both are asked the same calls, worked ones and drawn ones, and each reply, each sample that is out, and the free blocks have to be the same.
#![tactic(auto)]

#[cfg(test)]
mod cases;
#[cfg(test)]
mod drawn;
#[cfg(test)]
mod draws;
#[cfg(test)]
mod mixes;
#[cfg(test)]
mod pair;
#[cfg(test)]
mod steps;
#[cfg(test)]
mod tapes;

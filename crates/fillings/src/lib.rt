//! How the bytes of an image fill in what a journal rebuilds: the laws stand in `specs/`.
#![tactic(auto)]

pub mod laws;

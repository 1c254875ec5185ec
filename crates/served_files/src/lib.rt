//! The files that the servings of a script give: what each caller heard, and how a history sets the files.
#![tactic(auto)]

mod heard;
mod setting;

pub use heard::{Heard, is_over, keep};
pub use setting::set_files;

#[cfg(test)]
mod tests;

//! Changes as the journal spells them: one spelling a change.
#![tactic(auto)]

mod appending;
mod errors;
mod fields;
mod getting;
mod items;
mod kinds;
pub mod laws;
mod putting;
mod short;

pub use errors::GetError;
pub use getting::get;
pub use putting::{put, size};
pub use short::{SHORT, advanced_bytes, forgotten_bytes};

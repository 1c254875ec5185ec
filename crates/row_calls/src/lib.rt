//! What the calls on interests, on the moment and of sweeps come to on the tables, but for the journal's refusal. A change is made ready with all its memory, and the tables show what they did.
#![tactic(auto)]

mod advancing;
mod asking;
mod counting;
mod forgetting;
mod outcomes;
mod retaining;
mod sweeping;

pub use advancing::ask_advance;
pub use asking::ask;
pub use counting::ask_census;
pub use forgetting::ask_forget;
pub use outcomes::{Asked, Growth};
pub use retaining::ask_retain;
pub use sweeping::ask_sweep;

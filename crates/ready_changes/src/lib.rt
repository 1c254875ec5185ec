//! Changes of interests, of the moment and of a sweep: all memory is taken before they go to the disk, so that they can be done, or be given back, without memory. One is given back by dropping it.
#![tactic(auto)]

mod laws;
mod payloads;
mod performing;
mod rows;
mod sweeps;

pub use laws::{all_stay_in_use, base_grows_by_rows, changes_of_calls};
pub use payloads::Payload;
pub use performing::perform;
use recovery::Going;
pub use rows::{ready_advance, ready_census, ready_forget, ready_retain};
pub use sweeps::ready_sweep;
use voice_model::{Class, Key, RopeList, Row};
use voice_units::Moment;

/// What a change does to the tables, with all that it needs.
#[derive(Drop)]
pub enum Act {
    /// A row comes last.
    Retain(Row),
    /// The row of a class and key goes.
    Forget(Class, Key),
    /// These rows of class Listed go.
    Count(Going),
    /// These rows of class Until go, which are expired, and then these ropes.
    Sweep(Going, RopeList),
    /// The moment comes.
    Advance(Moment),
}

/// A change that is ready to be done, and as the journal spells it.
#[derive(Drop)]
pub struct ReadyChange {
    pub act: Act,
    pub payload: Payload,
}

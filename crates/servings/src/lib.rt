//! A lane's jobs served to their ends: each window fetched, heard and brought back, turn by turn, while other callers have theirs, or by one caller alone.
#![tactic(auto)]

mod alone;
mod copying;
mod serving;

pub use alone::serve_alone;
pub use copying::hear_window;
pub use serving::serve_job;

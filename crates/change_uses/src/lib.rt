//! Tests of changes: how the journal spells them, what calls on rows come to, and changes of rows made ready.
#![tactic(auto)]

#[cfg(test)]
mod calls;
#[cfg(test)]
mod replays;
#[cfg(test)]
mod rows;
#[cfg(test)]
mod spellings;

//! What a player gets.

/// What a player gets as it asks for the next samples of its window.
#[derive(Clone, Copy, Debug, PartialEq, Eq)]
pub enum Took {
    /// So many samples, at least one.
    Samples(usize),
    /// There is no live window, or all of it was copied.
    Dry,
    /// The play was stopped; nothing was copied.
    Hinted,
}

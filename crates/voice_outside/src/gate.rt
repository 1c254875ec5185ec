//! A gate that tests use to hold callers back.

/// It may hold a caller back, for a bounded number of turns: before each call of a line, counted from turn 0, and as the line is done. Contracts give it no meaning.
pub trait Gate: Sync {
    /// Whether it never holds anybody back.
    fn is_open(&self) -> bool;

    fn before(&self, caller: u16, line: u32, turn: u32);

    fn after(&self, caller: u16, line: u32);
}

/// A gate that holds nobody back.
#[derive(Clone, Copy, Debug)]
pub struct OpenGate;

impl Gate for OpenGate {
    fn is_open(&self) -> bool {
        true
    }

    fn before(&self, _caller: u16, _line: u32, _turn: u32) {}

    fn after(&self, _caller: u16, _line: u32) {}
}

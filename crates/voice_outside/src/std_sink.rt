//! Standard output as a sink. It is trusted: no clause says what a terminal or a pipe shows.

ghost use Rattle.std.specs.Prelude.{ℕ, None};

use crate::errors::OutsideError;
use crate::sink::Sink;

/// Standard output. It tells nothing of its contents, and counts its faults and the pieces of which it took nothing.
#[derive(Drop)]
pub struct StdSink<'a, R: Print> {
    rt: &'a R,
    faults: u64,
    empty_takes: u64,
}

impl<'a, R: Print> StdSink<'a, R> {
    /// The sink of the runtime's standard output.
    pub fn new(rt: &'a R) -> StdSink<'a, R> {
        StdSink {
            rt,
            faults: 0,
            empty_takes: 0,
        }
    }
}

impl<R: Print> Sink for StdSink<'_, R> {
    ghost contents = { λ s. None };

    ghost faults = { λ s. s.faults };

    ghost empty_takes = { λ s. s.empty_takes };

    fn write(&mut self, bytes: &[u8]) -> Result<usize, OutsideError> {
        match self.rt.write_some(bytes) {
            Ok(n) => {
                if n == 0 {
                    self.empty_takes = self.empty_takes.saturating_add(1);
                }
                Ok(n)
            }
            Err(_) => {
                self.faults = self.faults.saturating_add(1);
                Err(OutsideError::Failed)
            }
        }
    }
}

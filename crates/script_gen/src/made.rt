//! Scripts and their sample files.

ghost use Rattle.std.specs.Prelude.{◌≡◌, ◌≤◌, IfOk};
ghost use Rattle.script_gen.specs.Scripts.{lines_of, script_of, files_of, tapes_of};

use super::draws::Draws;
use super::lines::Line;
use super::samples::{mention, tapes_of};
use std::alloc::Global;
use std::fmt::Write;
use voice_model::Tapes;
use voice_units::NoMemory;

/// The bytes of the script of a seed, of 1 to 65,535 lines, and the sample files that its lines mention, each once, by their first mention.
/// The one error is want of memory.
pub fn make(alloc: Global, seed: u64, lines: u32) -> Result<(Vec<u8>, Tapes), NoMemory>
    requires some { 1 ≤ lines }
    requires most { lines ≤ 65535 }
    ensures script { IfOk result (λ made. made.0.items ≡ script_of (lines_of seed lines)) }
    ensures tapes { IfOk result (λ made. made.1 ≡ tapes_of (files_of (lines_of seed lines))) }
{
    let mut draws = Draws { state: seed };
    let mut script = String::new(alloc);
    let mut files = Vec::new(alloc);
    for k in 0..lines {
        let line = Line::drawn(&mut draws, k);
        mention(&mut files, line.file())?;
        writeln!(script, "{line}")?;
    }
    let tapes = tapes_of(alloc, &files)?;
    Ok((script.into_bytes(), tapes))
}

//! The stretches of windows.

ghost use Rattle.std.specs.Prelude.{◌≡◌, ◌≤◌, take, drop, IfOk};
ghost use Rattle.voice_units.specs.Spots.{spots_of, stretches};

use rope_algebra::Pieces;
use std::alloc::Global;
use voice_units::{NoMemory, Piece, WINDOW_STRETCHES};

/// The first four stretches of what is not heard yet of a passage.
pub fn window_of(
    alloc: Global,
    passage: &Pieces,
    heard: u32,
    block: u32,
) -> Result<Vec<Piece>, NoMemory>
    requires least { 8 ≤ block }
    requires most { block ≤ 8192 }
    ensures { IfOk result (λ window. window.items ≡ take 4 (stretches block (drop heard (spots_of passage.now)))) }
{
    let mut window = Vec::with_capacity(alloc, 4)?;
    let mut at = heard.min(passage.length());
    for k in 0..WINDOW_STRETCHES {
        let Some(stretch) = passage.stretch(at, block) else {
            return Ok(window);
        };
        at += stretch.len;
        window.push(stretch)?;
    }
    Ok(window)
}

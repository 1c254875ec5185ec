//! Generated scripts with their tapes, as a program runs them.

ghost use Rattle.std.specs.Prelude.{◌≡◌, ◌≤◌, IfOk, length};
ghost use Rattle.script_gen.specs.Scripts.{lines_of, files_of, tapes_of};
ghost use Rattle.script_lang.specs.Verbs.{is_built_verb};
ghost use Rattle.script_lang.specs.Whole.{IsWhole};
ghost use Rattle.made_scripts.specs.Laws.{IsMade};

use script_gen::make;
use script_lang::{Script, ScriptError, parse};
use std::alloc::Global;
use voice_model::Tapes;
use voice_units::NoMemory;

/// The script of a seed, of 1 to 65,535 lines, as the language has it, and a tape for each of its sample files. The one error is want of memory.
pub fn made(alloc: Global, seed: u64, lines: u32) -> Result<(Script, Tapes), NoMemory>
    requires some { 1 ≤ lines }
    requires most { lines ≤ 65535 }
    ensures script { IfOk result (λ made. IsMade seed lines made.0) }
    ensures whole { IfOk result (λ made. IsWhole is_built_verb made.0) }
    ensures tapes { IfOk result (λ made. made.1 ≡ tapes_of (files_of (lines_of seed lines))) }
    ensures as_many { IfOk result (λ made. length made.1 ≡ length made.0.samples) }
{
    let (bytes, tapes) = make(alloc, seed, lines)?;
    match parse(alloc, bytes.as_slice()) {
        Ok(script) => Ok((script, tapes)),
        Err(ScriptError::NoMemory) => Err(NoMemory),
        Err(ScriptError::BadLine(_, _)) => unreachable!(),
    }
}

//! The sample files, and which of them a script mentions.

ghost use Rattle.std.specs.Prelude.{◌≡◌, IfOk, OnOk};
ghost use Rattle.script_gen.specs.Samples.{file_bytes};
ghost use Rattle.script_gen.specs.Scripts.{mention, tapes_of};

use std::alloc::Global;
use voice_model::Tapes;
use voice_units::NoMemory;

// The bytes of a sample file.
#[tactic(auto, unfolding(crate::specs::Samples::file_bytes))]
fn file_bytes(alloc: Global, file: u8) -> Result<Vec<u8>, NoMemory>
    ensures { IfOk result (λ bytes. bytes.items ≡ file_bytes file) }
{
    let number = u32::from(file);
    let len = 1000 * (number + 1);
    let mut bytes = Vec::with_capacity(alloc, len as usize)?;
    for k in 0..len {
        bytes.push(((7 * k + 31 * number) % 256) as u8)?;
    }
    Ok(bytes)
}

/// Adds the file that a line mentions, if it is new.
pub fn mention(files: &mut Vec<u8>, file: Option<u8>) -> Result<(), NoMemory>
    ensures { OnOk result (files.new.items ≡ mention files.old.items file) }
{
    if let Some(file) = file {
        if !files.contains(&file) {
            files.push(file)?;
        }
    }
    Ok(())
}

/// The samples of files.
pub fn tapes_of(alloc: Global, files: &[u8]) -> Result<Tapes, NoMemory>
    ensures { IfOk result (λ tapes. tapes ≡ tapes_of files.now) }
{
    let mut tapes = Vec::with_capacity(alloc, files.len())?;
    for file in files {
        tapes.push(file_bytes(alloc, *file)?)?;
    }
    Ok(Tapes::new(tapes))
}

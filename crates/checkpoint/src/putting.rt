//! Changes as payloads.

ghost use Rattle.std.specs.Prelude.{◌≡◌, ◌++◌, ◌∷◌, [], true, OnOk};
ghost use Rattle.voice_model.specs.Spelling.{spelling, keeps_grammar};

use change_codec::{put, size};
use std::alloc::Global;
use voice_journal::Payloads;
use voice_model::Change;
use voice_units::NoMemory;

/// Puts a change behind the payloads. A base whose size takes more than 64 bits counts as want of memory.
pub(crate) fn put_change(
    alloc: Global,
    change: &Change,
    payloads: &mut Payloads,
) -> Result<(), NoMemory>
    requires { keeps_grammar change.now ≡ true }
    ensures { OnOk result (payloads.new ≡ payloads.old ++ spelling change.now ∷ []) }
{
    let mut bytes = Vec::with_capacity(alloc, size(change) as usize)?;
    put(change, &mut bytes)?;
    let framed = 5 + bytes.len() as u64;
    if payloads.size() > u64::MAX - framed {
        return Err(NoMemory);
    }
    payloads.push(bytes)
}

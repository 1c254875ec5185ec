//! The change of a recording that ends, as the journal spells it.

ghost use Rattle.std.specs.Prelude.{◌≡◌, true, IfOk};
ghost use Rattle.voice_model.specs.Spelling.{spelling, keeps_grammar};
ghost use Rattle.next_ropes.specs.Ready.{recorded_change};

use change_codec::{put, size};
use std::alloc::Global;
use voice_model::{AddressList, Change};
use voice_units::{NoMemory, RopeId};

/// The bytes that spell a change.
fn spelled(alloc: Global, change: &Change) -> Result<Vec<u8>, NoMemory>
    requires { keeps_grammar change.now ≡ true }
    ensures { IfOk result (λ bytes. bytes.items ≡ spelling change.now) }
{
    let mut bytes = Vec::with_capacity(alloc, size(change) as usize)?;
    put(change, &mut bytes)?;
    Ok(bytes)
}

/// The bytes that spell the change of a recording in an area of this form.
pub(crate) fn recording_payload(
    alloc: Global,
    form: u8,
    id: RopeId,
    len: u32,
    addresses: &[u32],
) -> Result<Vec<u8>, NoMemory>
    requires { keeps_grammar (recorded_change form id len addresses.now) ≡ true }
    ensures { IfOk result (λ bytes. bytes.items ≡ spelling (recorded_change form id len addresses.now)) }
{
    let list = AddressList::of(Vec::from_slice(alloc, addresses)?);
    let change = if form == 2 {
        Change::Wide(id, len, list)
    } else {
        Change::Recorded(id, len, list)
    };
    spelled(alloc, &change)
}

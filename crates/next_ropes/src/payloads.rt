//! The changes of ropes that come next, as the journal spells them.

ghost use Rattle.std.specs.Prelude.{◌≡◌, true, IfOk};
ghost use Rattle.voice_model.specs.Spelling.{spelling, keeps_grammar};
ghost use Rattle.next_ropes.specs.Ready.{recorded_change};

use change_codec::{put, size};
use rope_algebra::Pieces;
use std::alloc::Global;
use voice_model::{AddressList, Change, PieceList};
use voice_units::{NoMemory, RopeId};

/// The bytes that spell a change.
fn spelled(alloc: Global, change: &Change) -> Result<Vec<u8>, NoMemory>
    requires { keeps_grammar change.now ≡ true }
    ensures { IfOk result (λ bytes. bytes.items ≡ spelling change.now) }
{
    let mut bytes = Vec::with_capacity(alloc, size(change) as usize)?;
    put(change, &mut bytes)?;
    Ok(bytes)
}

/// The list of a rope's pieces.
fn list_of(alloc: Global, pieces: &Pieces) -> Result<PieceList, NoMemory>
    ensures { IfOk result (λ list. list ≡ pieces.now) }
{
    let mut list = Vec::with_capacity(alloc, pieces.count() as usize)?;
    for k in 0..pieces.count() {
        let Some(piece) = pieces.piece(k) else {
            return Ok(PieceList::of(list));
        };
        list.push(piece)?;
    }
    Ok(PieceList::of(list))
}

/// The bytes that spell the change of an edit.
pub(crate) fn edit_payload(alloc: Global, id: RopeId, pieces: &Pieces) -> Result<Vec<u8>, NoMemory>
    requires { keeps_grammar (Change.Edited id pieces.now) ≡ true }
    ensures { IfOk result (λ bytes. bytes.items ≡ spelling (Change.Edited id pieces.now)) }
{
    let list = list_of(alloc, pieces)?;
    spelled(alloc, &Change::Edited(id, list))
}

/// The bytes that spell the change of a recording in an area of this form.
pub(crate) fn recording_payload(
    alloc: Global,
    form: u8,
    id: RopeId,
    len: u32,
    addresses: &[u32],
) -> Result<Vec<u8>, NoMemory>
    requires { keeps_grammar (recorded_change form id len addresses.now) ≡ true }
    ensures { IfOk result (λ bytes. bytes.items ≡ spelling (recorded_change form id len addresses.now)) }
{
    let list = AddressList::of(Vec::from_slice(alloc, addresses)?);
    let change = if form == 2 {
        Change::Wide(id, len, list)
    } else {
        Change::Recorded(id, len, list)
    };
    spelled(alloc, &change)
}

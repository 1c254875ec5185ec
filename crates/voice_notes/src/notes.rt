//! The anchors of a note.

ghost use Rattle.std.specs.Prelude.{◌≡◌, None, IfOk, IfErr, OnOk, OnErr};
ghost use Rattle.voice_notes.specs.Anchors.{anchored, bad_place, with_keys, IsCause};

use crate::errors::NoteError;
use crate::front::{Front, front_at};
use crate::gathered::Gathered;
use std::alloc::Global;
use voice_model::KeyList;

// The keys with those of a note's anchors.
fn gathered_from(note: &[u8], keys: Gathered) -> Result<Gathered, NoteError>
    ensures ok { IfOk result (λ gathered. (bad_place note.now ≡ None) × (gathered ≡ with_keys keys (anchored note.now))) }
    ensures err { IfErr result (IsCause note.now) }
{
    let mut gathered = keys;
    for place in 0..note.len() {
        match front_at(note, place) {
            Front::Other => {}
            Front::Anchor(key) => gathered = gathered.with(key)?,
            Front::Bad => return Err(NoteError::BadAnchor(place as u64)),
        }
    }
    Ok(gathered)
}

/// Adds the keys of a note's anchors that are not in the list yet, in the order of their places. An anchor is `[[voice:`, a key of 1 to 64 letters, digits, `.`, `_` or `-`, and `]]`. `BadAnchor` names the first place at which `[[voice:` stands and no anchor does; after a refusal the list is as before. The list is copied once a call, since a list that is lent can't grow in place.
pub fn anchors(alloc: Global, bytes: &[u8], keys: &mut KeyList) -> Result<(), NoteError>
    ensures ok { OnOk result ((bad_place bytes.now ≡ None) × (keys.new ≡ with_keys keys.old (anchored bytes.now))) }
    ensures err { IfErr result (IsCause bytes.now) }
    ensures rest { OnErr result (keys.new ≡ keys.old) }
{
    let before = Gathered::of(alloc, keys.items())?;
    let after = gathered_from(bytes, before)?;
    *keys = after.list();
    Ok(())
}

//! Counts over all rows, kept as rows come and go.

ghost use Rattle.std.specs.Prelude.{◌≡◌, ℕ, ◌<◌, ◌≤◌, ◌+◌, ◌-◌, ◌^◌, [], ◌∷◌, length, IfOk, OnOk, OnErr, IsOk, ◌==◌, if◌then◌else◌};
ghost use Rattle.indexmap.specs.IndexMap.{spare};
ghost use Rattle.interest_table.specs.Inside.{rows_counted, Lost};

use indexmap::IndexMap;
use voice_model::Row;
use voice_units::{NoMemory, RopeId};

/// How many rows each rope has, and how many bytes the keys and the notes of all rows have. A rope without rows is not kept.
#[derive(Drop)]
pub(crate) struct Tally {
    pub(crate) counts: IndexMap<RopeId, u32>,
    pub(crate) key_bytes: u64,
    pub(crate) note_bytes: u64,
}

/// One row of a rope less. A rope without rows is not kept.
fn drop_one(counts: &mut IndexMap<RopeId, u32>, rope: RopeId)
    ensures spare { spare counts.old ≤ spare counts.new }
    ensures count { (other : ℕ) → rows_counted counts.new other ≡ (if rope == other then rows_counted counts.old other - 1 else rows_counted counts.old other) }
{
    if counts.get(&rope).copied().unwrap_or(0) <= 1 {
        counts.swap_remove(&rope);
        return;
    }
    let Some(count) = counts.get_mut(&rope) else {
        return;
    };
    *count = count.saturating_sub(1);
}

/// How many rows a rope has.
pub(crate) fn count_of(counts: &IndexMap<RopeId, u32>, rope: RopeId) -> u32
    ensures { result ≡ rows_counted counts.now rope }
{
    counts.get(&rope).copied().unwrap_or(0)
}

/// Counts a row that goes.
pub(crate) fn lose(tally: &mut Tally, row: &Row)
    ensures { Lost tally.old tally.new (row.now ∷ []) }
{
    drop_one(&mut tally.counts, row.rope);
    tally.key_bytes = tally.key_bytes.saturating_sub(row.key.bytes().len() as u64);
    tally.note_bytes = tally
        .note_bytes
        .saturating_sub(row.note.bytes().len() as u64);
}

/// Counts a row that comes. After an error all counts are as before.
pub(crate) fn gain(tally: &mut Tally, row: &Row) -> Result<(), NoMemory>
    requires count { rows_counted tally.old.counts row.now.rope + 1 < 2 ^ 32 }
    requires keys { tally.old.key_bytes + 64 < 2 ^ 64 }
    requires notes { tally.old.note_bytes + 128 < 2 ^ 64 }
    ensures count { OnOk result ((other : ℕ) → rows_counted tally.new.counts other ≡ (if row.now.rope == other then rows_counted tally.old.counts other + 1 else rows_counted tally.old.counts other)) }
    ensures keys { OnOk result (tally.new.key_bytes ≡ tally.old.key_bytes + length row.now.key) }
    ensures notes { OnOk result (tally.new.note_bytes ≡ tally.old.note_bytes + length row.now.note) }
    ensures short { (length row.now.key ≤ 64) × (length row.now.note ≤ 128) }
    ensures err { OnErr result (tally.new.counts.entries ≡ tally.old.counts.entries) }
    ensures err_bytes { OnErr result ((tally.new.key_bytes ≡ tally.old.key_bytes) × (tally.new.note_bytes ≡ tally.old.note_bytes)) }
    ensures room { 1 ≤ spare tally.old.counts → IsOk result }
    ensures spare { spare tally.old.counts ≤ spare tally.new.counts + 1 }
{
    let key = row.key.bytes().len() as u64;
    let note = row.note.bytes().len() as u64;
    let count = count_of(&tally.counts, row.rope);
    tally.counts.insert(row.rope, count + 1)?;
    tally.key_bytes += key;
    tally.note_bytes += note;
    Ok(())
}

/// The same counts. Of their spare room nothing is said.
pub(crate) fn copy_of(tally: &Tally) -> Result<Tally, NoMemory>
    ensures counts { IfOk result (λ copy. copy.counts.entries ≡ tally.now.counts.entries) }
    ensures bytes { IfOk result (λ copy. (copy.key_bytes ≡ tally.now.key_bytes) × (copy.note_bytes ≡ tally.now.note_bytes)) }
{
    let counts = tally.counts.clone()?;
    Ok(Tally {
        counts,
        key_bytes: tally.key_bytes,
        note_bytes: tally.note_bytes,
    })
}

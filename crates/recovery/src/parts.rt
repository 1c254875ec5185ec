//! The tables of a manager, as a journal rebuilds them.

ghost use Rattle.std.specs.Prelude.{◌≡◌, ◌≢◌, ◌+◌, ◌<◌, ◌^◌, true, length, is_some, Ok, IfOk};
ghost use Rattle.voice_model.specs.Spelling.{keeps_grammar};
ghost use Rattle.recovery.specs.Shown.{Rebuilds, IsParts};
ghost use Rattle.voice_model.specs.Replay.{Rebuilt, nothing_rebuilt, is_legal, acted, brings};

use interest_table::InterestTable;
use rope_table::RopeTable;
use std::alloc::Global;
use voice_blocks::BlockMap;
use voice_model::Change;
use voice_units::{Moment, NoMemory, Shape};

/// The durable part of a manager: the live ropes, the interests, the addresses of blocks, the moment, the number of the next rope, and the form of the journal's area.
#[derive(Drop)]
pub struct Parts {
    pub ropes: RopeTable,
    pub interests: InterestTable,
    pub blocks: BlockMap,
    pub moment: Moment,
    pub next: u64,
    pub form: u8,
}

impl Parts {
    /// What replay begins with: nothing, on a disk of this shape.
    #[tactic(auto, using(crate::proofs::Rebuilding::nothing_shown))]
    pub fn empty(alloc: Global, shape: &Shape) -> Result<Parts, NoMemory>
        ensures { IfOk result (λ parts. Rebuilds parts (nothing_rebuilt shape.now)) }
    {
        let form = if shape.version == 2 { 2 } else { 1 };
        Ok(Parts {
            ropes: RopeTable::new(alloc, shape.block),
            interests: InterestTable::new(alloc),
            blocks: BlockMap::new(alloc, shape.blocks)?,
            moment: Moment(0),
            next: 1,
            form,
        })
    }

    /// Tries a change of a kind that a running server makes: true exactly where it is legal, and then it has acted. After false or want of memory the parts show what they did.
    pub fn apply(&mut self, alloc: Global, shape: &Shape, change: &Change) -> Result<bool, NoMemory>
        requires grammar { keeps_grammar change.now ≡ true }
        requires kind { is_some (brings change.now) ≡ true }
        requires parts { IsParts shape.now self.old }
        requires few_ropes { length self.old.ropes.ropes + 1 < 2 ^ 32 }
        requires few_rows { length self.old.interests.rows + 1 < 2 ^ 32 }
        ensures legal { (r : Rebuilt) → Rebuilds self.old r → r.shape ≡ shape.now → IfOk result (λ done. done ≡ is_legal r change.now) }
        ensures done { (r : Rebuilt) → Rebuilds self.old r → r.shape ≡ shape.now → result ≡ Ok true → Rebuilds self.new (acted r change.now) }
        ensures same { (r : Rebuilt) → Rebuilds self.old r → r.shape ≡ shape.now → result ≢ Ok true → Rebuilds self.new r }
    {
        match change {
            Change::Recorded(id, len, addresses) => {
                self.try_recorded(alloc, shape, *id, *len, addresses.items())
            }
            Change::Wide(id, len, addresses) => {
                self.try_wide(alloc, shape, *id, *len, addresses.items())
            }
            Change::Edited(id, pieces) => {
                let copied = Vec::from_slice(alloc, pieces.items())?;
                self.try_edited(shape, *id, copied)
            }
            Change::Retained(class, key, id, note) => self.try_retained(*class, key, *id, note),
            Change::Forgotten(class, key) => Ok(self.try_forgotten(shape, *class, key)),
            Change::Census(keys) => self.try_census(alloc, shape, keys.items()),
            Change::Swept(ids) => self.try_swept(alloc, shape, ids.items()),
            Change::Advanced(moment) => Ok(self.try_advanced(*moment)),
            _ => Ok(false),
        }
    }
}

// The pool, which threads share, and its keeper.
ghost use Rattle.std.specs.Prelude.{◌≡◌, ℕ, ◌*◌, ◌%◌, ◌≤◌, [], IfOk, replicate};
ghost use Rattle.std.specs.Arc.{arc_value};
ghost use Rattle.frame_pool.specs.Words.{word_count};
ghost use Rattle.frame_pool.specs.Rule.{opened};
ghost use Rattle.frame_pool.specs.Pool.{IsSized};
ghost use Rattle.frame_pool.specs.declared.views.View.TheVariants.{Keeper as AsKeeper};

use crate::frames::blank_frames;
use crate::keeper::Keeper;
use crate::plays::LeaseRule;
use crate::steps::{Place, Steps};
use crate::views::{Parts, Sizes, View};
use atomic_table::Table;
use std::alloc::Global;
use std::marker::Model;
use std::sync::Arc;
use voice_units::NoMemory;

pub(crate) type Words = Table<Parts, View, Sizes, LeaseRule, Global>;

/// What the keeper and the leases share: a word and a hint word of each lane. To a contract it is which pool it is, and its sizes.
#[derive(Drop)]
pub struct Pool {
    table: Words,
    sizes: Sizes,
}

impl Model for Pool {
    ghost use Rattle.std.specs.Prelude.{◌≡◌};
    ghost use Rattle.frame_pool.specs.Words.{word_count};
    ghost use Rattle.frame_pool.specs.Pool.{Identity, IsSized};

    ghost Value = { Identity };

    ghost view = { λ p. record { id = p.table.shared.table_id; sizes = p.sizes } };

    ghost invariant = { λ p. IsSized p.sizes × (p.table.shared.table_id.words ≡ word_count p.sizes.lanes) };
}

impl Pool {
    pub(crate) fn sizes(&self) -> Sizes
        ensures value { result ≡ self.now.sizes }
        ensures sized { IsSized result }
    {
        self.sizes
    }

    pub(crate) fn steps(&self) -> &Steps
        ensures pool { result.now.table_id ≡ self.now.id }
        ensures words { result.now.table_id.words ≡ word_count self.now.sizes.lanes }
    {
        &self.table.shared
    }
}

impl Pool {
    /// A pool whose lanes are all free and whose frames are all 0, and its keeper.
    pub fn new(alloc: Global, lanes: u16, block: u32) -> Result<(Arc<Pool>, Keeper), NoMemory>
        requires lanes { (1 ≤ lanes) × (lanes ≤ 16) }
        requires block { (block % 8 ≡ 0) × (8 ≤ block) × (block ≤ 8192) }
        ensures pool { IfOk result (λ r. r.1.pool ≡ arc_value r.0) }
        ensures sizes { IfOk result (λ r. (r.1.pool.sizes.lanes ≡ lanes) × (r.1.pool.sizes.block ≡ block)) }
        ensures frames { IfOk result (λ r. r.1.frames ≡ replicate (4 * lanes) (replicate block 0)) }
        ensures free { IfOk result (λ r. r.1.view ≡ opened (record { lanes = lanes; block = block })) }
    {
        let sizes = Sizes { lanes, block };
        let (table, seat) = lay(alloc, sizes)?;
        let Ok(pool) = Arc::new(alloc, Pool { table, sizes }) else {
            return Err(NoMemory);
        };
        let frames = blank_frames(alloc, 4 * usize::from(lanes), block as usize)?;
        let keeper = Keeper::of(Arc::try_clone(&pool)?, frames, seat);
        Ok((pool, keeper))
    }
}

fn lay(alloc: Global, sizes: Sizes) -> Result<(Words, Place), NoMemory>
    requires { IsSized sizes }
    ensures place { IfOk result (λ r. (r.1.table_id ≡ r.0.shared.table_id) × (r.1.id ≡ 0) × (r.1.me ≡ (AsKeeper (opened sizes), []))) }
    ensures words { IfOk result (λ r. r.0.shared.table_id.words ≡ word_count sizes.lanes) }
{
    let lanes = sizes.lanes as usize;
    let words = vec![in alloc; 0; 2 * lanes + 1]?;
    Ok(Table::of_words(alloc, words.as_slice(), &sizes)?)
}

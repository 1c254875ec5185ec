//! Addresses for a new voice file.

ghost use Rattle.std.specs.Prelude.{◌≡◌, ◌<◌, ◌↔◌, ℕ, length, IfOk, IfSome, IsNone};
ghost use Rattle.voice_model.specs.Replay.{Rebuilt};
ghost use Rattle.voice_blocks.specs.Holders.{holder_at, open_in};
ghost use Rattle.recovery.specs.Shown.{Rebuilds};
ghost use Rattle.mirror_tables.specs.Beside.{AreFree};
ghost use Rattle.mirror_tables.specs.Taken.{HoldsNone, AreHeld, AreOpen};

use recovery::Parts;
use std::alloc::Global;
use voice_blocks::{BlockMap, Owner};
use voice_model::AddressList;
use voice_units::{Lane, NoMemory};

// The addresses of the first n blocks that are taken for a moment.
fn addresses_of(alloc: Global, blocks: &BlockMap, n: u32) -> Result<Vec<u32>, NoMemory>
    ensures count { IfOk result (λ list. length list.items ≡ n) }
    ensures held { IfOk result (λ list. AreHeld 0 blocks.now.holders list.items) }
{
    let mut list = Vec::with_capacity(alloc, n as usize)?;
    for index in 0..n {
        let Some(address) = blocks.address(Owner::Taking(Lane(0)), index) else {
            return Err(NoMemory);
        };
        list.push(address)?;
    }
    Ok(list)
}

// The n lowest free addresses, which a recording takes and gives back.
fn lowest_free(alloc: Global, blocks: &mut BlockMap, n: u32) -> Result<Option<Vec<u32>>, NoMemory>
    requires { HoldsNone blocks.old.holders }
    ensures size { length blocks.new.holders ≡ length blocks.old.holders }
    ensures same { (a : ℕ) → holder_at blocks.new.holders a ≡ holder_at blocks.old.holders a }
    ensures enough { IfOk result (λ found. IsNone found ↔ (open_in blocks.old.holders < n)) }
    ensures free { IfOk result (λ found. IfSome found (λ list. AreOpen blocks.old.holders n list.items)) }
{
    if n > blocks.free() {
        return Ok(None);
    }
    blocks.reserve(n)?;
    if !blocks.take(Owner::Taking(Lane(0)), n) {
        return Ok(None);
    }
    let taken = addresses_of(alloc, blocks, n);
    blocks.drop_owner(Owner::Taking(Lane(0)));
    Ok(Some(taken?))
}

/// The n lowest free addresses, rising; none exactly where fewer are free. The tables show what they did.
pub fn free_addresses(
    alloc: Global,
    tables: &mut Parts,
    n: u32,
) -> Result<Option<AddressList>, NoMemory>
    requires { (b : Rebuilt) × Rebuilds tables.old b }
    ensures same { (b : Rebuilt) → Rebuilds tables.old b → Rebuilds tables.new b }
    ensures enough { IfOk result (λ found. IsNone found ↔ (open_in tables.old.blocks.holders < n)) }
    ensures free { (b : Rebuilt) → Rebuilds tables.old b → IfOk result (λ found. IfSome found (λ list. AreFree b n list)) }
    ensures ropes { tables.new.ropes ≡ tables.old.ropes }
    ensures interests { tables.new.interests ≡ tables.old.interests }
    ensures moment { tables.new.moment ≡ tables.old.moment }
    ensures next { tables.new.next ≡ tables.old.next }
    ensures form { tables.new.form ≡ tables.old.form }
{
    match lowest_free(alloc, &mut tables.blocks, n)? {
        Some(list) => Ok(Some(AddressList::of(list))),
        None => Ok(None),
    }
}

//! The blocks of voice files in a base.

ghost use Rattle.std.specs.Prelude.{◌≡◌, ◌≤◌, ◌++◌, ◌∷◌, [], List, map, length, true, OnOk, IfOk};
ghost use Rattle.voice_model.specs.Spelling.{spelling, keeps_grammar};
ghost use Rattle.voice_model.specs.Replay.{Placed};
ghost use Rattle.voice_model.specs.Valid.{Every};
ghost use Rattle.voice_model.specs.Base.{by_file, file_change};
ghost use Rattle.checkpoint.specs.Blocks.{IsHeld, place_of_block, pair_of_block, file_of, names_of, run_in};

use crate::blocks::BlockName;
use crate::putting::put_change;
use std::alloc::Global;
use voice_blocks::{BlockMap, Owner};
use voice_journal::Payloads;
use voice_model::{Change, Pair, PairList};
use voice_units::{NoMemory, RopeId};

/// A block of a voice file and its address.
#[derive(Clone, Copy, Debug, PartialEq, Eq)]
pub(crate) struct PlacedBlock {
    pub file: RopeId,
    pub index: u32,
    pub address: u32,
}

/// The blocks with their addresses, in the same order. Each of them has one.
pub(crate) fn placed_blocks(
    alloc: Global,
    names: &[BlockName],
    blocks: &BlockMap,
) -> Result<Vec<PlacedBlock>, NoMemory>
    ensures { (places : List Placed) → Every (IsHeld blocks.now.holders) places → names.now ≡ names_of places → IfOk result (λ placed. map place_of_block placed.items ≡ places) }
{
    let mut placed = Vec::with_capacity(alloc, names.len())?;
    for name in names {
        let Some(address) = blocks.address(Owner::File(name.file), name.index) else {
            return Ok(placed);
        };
        placed.push(PlacedBlock {
            file: name.file,
            index: name.index,
            address,
        })?;
    }
    Ok(placed)
}

/// How many blocks in front are of this file.
fn run_length(file: RopeId, placed: &[PlacedBlock]) -> usize
    ensures within { result ≤ length placed.now }
    ensures value { result ≡ run_in file placed.now }
{
    for (count, block) in placed.iter().enumerate() {
        if block.file.number() != file.number() {
            return count;
        }
    }
    placed.len()
}

/// The indices and addresses of blocks.
fn pairs_of(alloc: Global, placed: &[PlacedBlock]) -> Result<PairList, NoMemory>
    ensures { IfOk result (λ pairs. pairs ≡ map pair_of_block placed.now) }
{
    let mut pairs = Vec::with_capacity(alloc, placed.len())?;
    for block in placed {
        pairs.push(Pair {
            index: block.index,
            address: block.address,
        })?;
    }
    Ok(PairList::of(pairs))
}

/// Puts the blocks of one file.
fn put_file(
    alloc: Global,
    form: u8,
    file: RopeId,
    placed: &[PlacedBlock],
    payloads: &mut Payloads,
) -> Result<(), NoMemory>
    requires { keeps_grammar (file_change form (file_of file placed.now)) ≡ true }
    ensures { OnOk result (payloads.new ≡ payloads.old ++ spelling (file_change form (file_of file placed.now)) ∷ []) }
{
    let pairs = pairs_of(alloc, placed)?;
    let change = if form == 2 {
        Change::File2(file, pairs)
    } else {
        Change::File(file, pairs)
    };
    put_change(alloc, &change, payloads)
}

/// Puts the blocks file by file.
pub(crate) fn put_files(
    alloc: Global,
    form: u8,
    placed: &[PlacedBlock],
    payloads: &mut Payloads,
) -> Result<(), NoMemory>
    requires { Every (λ change. keeps_grammar change ≡ true) (map (file_change form) (by_file (map place_of_block placed.now))) }
    ensures { OnOk result (payloads.new ≡ payloads.old ++ map spelling (map (file_change form) (by_file (map place_of_block placed.now)))) }
{
    let mut rest = placed;
    while let Some(first) = rest.first() {
        let (run, later) = rest.split_at(run_length(first.file, rest));
        put_file(alloc, form, first.file, run, payloads)?;
        rest = later;
    }
    Ok(())
}

//! The tally of the tables.

ghost use Rattle.std.specs.Prelude.{◌≡◌, ◌+◌, ◌≤◌, ◌<◌, ◌^◌, ℕ, List, length, IfSome};
ghost use Rattle.voice_units.specs.declared.Piece.{Piece};
ghost use Rattle.voice_units.specs.Spots.{samples_in};
ghost use Rattle.voice_model.specs.Valid.{Every};
ghost use Rattle.voice_model.specs.Replay.{Rebuilt};
ghost use Rattle.voice_blocks.specs.Holders.{open_in};
ghost use Rattle.rope_table.specs.Table.{rope_of};
ghost use Rattle.running_tables.specs.Running.{Runs};
ghost use Rattle.tallies.specs.Tallies.{samples_of, samples_held};

use recovery::Parts;
use rope_table::RopeTable;
use voice_units::{RopeId, Shape};

/// How much a manager holds.
#[derive(Clone, Copy, Debug, PartialEq, Eq)]
pub struct Tally {
    /// How many ropes are live.
    pub ropes: u64,
    /// How many samples they have in all, each rope counted for itself.
    pub samples: u128,
    /// How many blocks are used.
    pub blocks: u32,
}

// The samples of a rope.
fn length_of(table: &RopeTable, id: RopeId) -> u32
    ensures { IfSome (rope_of table.now.ropes id) (λ rope. result ≡ samples_in rope.pieces) }
{
    let Some(pieces) = table.get(id) else {
        return 0;
    };
    pieces.length()
}

// The samples of all live ropes.
fn samples(table: &RopeTable) -> u128
    requires { Every (λ rope. 1 ≤ rope.id) table.now.ropes }
    ensures { result ≡ samples_held table.now.ropes }
{
    let _block = table.block();
    let mut last = 0;
    let mut sum = 0;
    while let Some(id) = table.after(last) {
        sum += u128::from(length_of(table, id));
        last = id.number();
    }
    sum
}

/// The tally of tables of a running manager of that shape. It takes no memory, and goes over the live ropes.
pub fn tallied(parts: &Parts, shape: &Shape) -> Tally
    requires { (held : List (List Piece)) × (pledged : List (List Piece)) × (takings : List ℕ) × (b : Rebuilt) × Runs held pledged takings parts.now b × (b.shape ≡ shape.now) }
    ensures ropes { (held pledged : List (List Piece)) (takings : List ℕ) (b : Rebuilt) → Runs held pledged takings parts.now b → result.ropes ≡ length b.kept.ropes }
    ensures samples { (held pledged : List (List Piece)) (takings : List ℕ) (b : Rebuilt) → Runs held pledged takings parts.now b → result.samples ≡ samples_of b.kept.ropes }
    ensures blocks { result.blocks + open_in parts.now.blocks.holders ≡ shape.now.blocks }
{
    let free = parts.blocks.free();
    Tally {
        ropes: parts.ropes.count() as u64,
        samples: samples(&parts.ropes),
        blocks: shape.blocks - free,
    }
}

//! Pieces in normal form, and the edits of ropes on them.

ghost use Rattle.std.specs.Prelude.{◌≡◌, ℕ, ◌+◌, ◌-◌, ◌%◌, ◌<◌, ◌≤◌, ◌^◌, ◌↔◌, [], ◌++◌, IfOk, IfSome, IsNone, drop, length, slice_get};
ghost use Rattle.voice_units.specs.Spots.{spots_in, spots_of, pieces_of, samples_in, slice, replaced, stretches, window};
ghost use Rattle.rope_algebra.specs.Kept.{IsKept, LieInFiles, IsRope, IsCounted, IsFirstStretch};

use super::cuts::{join, join_slice, part_of};
use super::runs::{stretch_of, window_of};
use super::starts::{Rest, rest_at, starts_of};
use std::alloc::Global;
use std::marker::Model;
use voice_units::{NoMemory, Piece};

/// The pieces of a rope. Contracts see the list of pieces, which is in normal form: none is empty, and none is continued by the next one.
#[derive(Drop)]
pub struct Pieces {
    pieces: Vec<Piece>,
    /// How many samples stand before each piece; it is not filled where there are fewer than two.
    starts: Vec<u32>,
    length: u32,
}

impl Model for Pieces {
    ghost use Rattle.std.specs.Prelude.{List};
    ghost use Rattle.voice_units.specs.declared.Piece.{Piece};
    ghost use Rattle.rope_algebra.specs.Kept.{IsPlaced};

    ghost Value = { List Piece };

    ghost view = { λ p. p.pieces.items };

    ghost invariant = { λ p. IsPlaced p.pieces.items p.starts.items p.length };
}

/// No pieces yet, with room for some.
fn room_for(alloc: Global, count: usize) -> Result<Vec<Piece>, NoMemory>
    ensures { IfOk result (λ pieces. pieces.items ≡ []) }
{
    Ok(Vec::with_capacity(alloc, count)?)
}

/// These pieces, which have so many samples, with their starts.
fn placed(pieces: Vec<Piece>, length: u32) -> Result<Pieces, NoMemory>
    requires { IsCounted pieces.items length }
    ensures { IfOk result (λ rope. rope ≡ pieces.items) }
{
    let starts = starts_of(&pieces)?;
    Ok(Pieces {
        pieces,
        starts,
        length,
    })
}

impl Pieces {
    /// The pieces of the empty rope. It takes no memory.
    pub fn empty(alloc: Global) -> Pieces
        ensures { result ≡ [] }
    {
        Pieces {
            pieces: Vec::new(alloc),
            starts: Vec::new(alloc),
            length: 0,
        }
    }

    /// The pieces of the rope of one piece, which may be empty.
    pub fn one(alloc: Global, piece: Piece) -> Result<Pieces, NoMemory>
        requires { piece.from + piece.len ≤ 2 ^ 30 }
        ensures { IfOk result (λ pieces. pieces ≡ pieces_of (spots_in piece)) }
    {
        let length = piece.len;
        let mut pieces = room_for(alloc, 1)?;
        join(&mut pieces, piece)?;
        placed(pieces, length)
    }

    /// The pieces of the rope that a list of pieces names; they need not be in normal form.
    pub fn of(alloc: Global, list: &[Piece]) -> Result<Pieces, NoMemory>
        requires ends { LieInFiles list.now }
        requires total { samples_in list.now < 2 ^ 32 }
        ensures { IfOk result (λ pieces. pieces ≡ pieces_of (spots_of list.now)) }
    {
        let mut pieces = room_for(alloc, list.len())?;
        let mut length = 0;
        for piece in list {
            length += piece.len;
            join(&mut pieces, *piece)?;
        }
        placed(pieces, length)
    }

    /// The rope of pieces that are in normal form. They are moved, not copied.
    pub fn from_normal(pieces: Vec<Piece>) -> Result<Pieces, NoMemory>
        requires { IsRope pieces.items }
        ensures { IfOk result (λ rope. rope ≡ pieces.items) }
    {
        let mut length = 0;
        for piece in &pieces {
            length += piece.len;
        }
        placed(pieces, length)
    }

    /// The pieces of this rope and, behind it, another one.
    pub fn concat(&self, other: &Pieces) -> Result<Pieces, NoMemory>
        requires { samples_in self.now + samples_in other.now ≤ 2 ^ 30 }
        ensures { IfOk result (λ pieces. pieces ≡ pieces_of (spots_of self.now ++ spots_of other.now)) }
    {
        let alloc = *self.pieces.allocator();
        let mut pieces = room_for(alloc, self.pieces.len() + other.pieces.len())?;
        join_slice(&mut pieces, &self.pieces, 0, self.length)?;
        join_slice(&mut pieces, &other.pieces, 0, other.length)?;
        placed(pieces, self.length + other.length)
    }

    /// The pieces of the `len` samples from `start` on.
    pub fn slice(&self, start: u32, len: u32) -> Result<Pieces, NoMemory>
        requires interval { start + len ≤ samples_in self.now }
        requires most { len ≤ 2 ^ 30 }
        ensures { IfOk result (λ pieces. pieces ≡ pieces_of (slice (spots_of self.now) start len)) }
    {
        let alloc = *self.pieces.allocator();
        let mut pieces = room_for(alloc, 0)?;
        let rest = rest_at(&self.pieces, &self.starts, start);
        join_slice(&mut pieces, rest.pieces, rest.skip, len)?;
        placed(pieces, len)
    }

    /// The pieces of this rope with another one in place of the `len` samples from `start` on.
    pub fn replace(&self, start: u32, len: u32, with: &Pieces) -> Result<Pieces, NoMemory>
        requires interval { start + len ≤ samples_in self.now }
        requires most { samples_in self.now - len + samples_in with.now ≤ 2 ^ 30 }
        ensures { IfOk result (λ pieces. pieces ≡ pieces_of (replaced (spots_of self.now) start len (spots_of with.now))) }
    {
        let alloc = *self.pieces.allocator();
        let end = start + len;
        let mut pieces = room_for(alloc, self.pieces.len() + with.pieces.len() + 1)?;
        join_slice(&mut pieces, &self.pieces, 0, start)?;
        join_slice(&mut pieces, &with.pieces, 0, with.length)?;
        join_slice(&mut pieces, &self.pieces, end, self.length - end)?;
        placed(pieces, self.length - len + with.length)
    }

    /// Equal pieces.
    pub fn copy(&self) -> Result<Pieces, NoMemory>
        ensures { IfOk result (λ pieces. pieces ≡ self.now) }
    {
        let alloc = *self.pieces.allocator();
        Ok(Pieces {
            pieces: Vec::from_slice(alloc, &self.pieces)?,
            starts: Vec::from_slice(alloc, &self.starts)?,
            length: self.length,
        })
    }

    /// How many samples the rope has. It is kept and not counted again.
    pub fn length(&self) -> u32
        ensures value { result ≡ samples_in self.now }
        ensures rope { IsRope self.now }
    {
        self.length
    }

    /// How many pieces there are.
    pub fn count(&self) -> u32
        ensures { result ≡ length self.now }
    {
        self.pieces.len() as u32
    }

    /// The k-th piece, from 0; `None` exactly where there are not so many.
    pub fn piece(&self, k: u32) -> Option<Piece>
        ensures { result ≡ slice_get self.now k }
    {
        self.pieces.get(k as usize).copied()
    }

    /// The first stretch behind the first `at` samples. It finds the piece there by a search, and takes no memory.
    pub fn stretch(&self, at: u32, block: u32) -> Option<Piece>
        requires at { at ≤ samples_in self.now }
        requires block { 0 < block }
        ensures value { result ≡ slice_get (stretches block (drop at (spots_of self.now))) 0 }
        ensures first { IfSome result (λ stretch. IsFirstStretch block at self.now stretch) }
        ensures none { IsNone result ↔ (at ≡ samples_in self.now) }
    {
        if at == self.length {
            return None;
        }
        let rest = rest_at(&self.pieces, &self.starts, at);
        Some(stretch_of(&rest.pieces[0], rest.skip, block))
    }

    /// How many samples the next window takes where `at` samples were heard. It finds the piece there by a search, and goes over the pieces up to the window's end.
    pub fn window(&self, at: u32, block: u32) -> u32
        requires at { at ≤ samples_in self.now }
        requires least { 8 ≤ block }
        requires most { block ≤ 8192 }
        requires words { block % 8 ≡ 0 }
        ensures value { result ≡ window block (spots_of self.now) at }
        ensures none { (result ≡ 0) ↔ (at ≡ samples_in self.now) }
    {
        let rest = rest_at(&self.pieces, &self.starts, at);
        window_of(rest.pieces, rest.skip, block)
    }
}

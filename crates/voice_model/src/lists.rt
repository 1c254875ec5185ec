//! Lists that calls, replies and changes carry. Contracts see each as the list of its items.

ghost use Rattle.std.specs.Prelude.{◌≡◌};

use super::texts::Key;
use std::marker::Model;
use voice_units::{Piece, RopeId};

/// Numbers of ropes.
#[derive(Drop)]
pub struct RopeList {
    items: Vec<RopeId>,
}

impl Model for RopeList {
    ghost use Rattle.std.specs.Prelude.{List, ℕ};

    ghost Value = { List ℕ };

    ghost view = { λ a. a.items.items };
}

impl RopeList {
    /// The list of these items. It takes no memory.
    pub fn of(items: Vec<RopeId>) -> RopeList
        ensures { result ≡ items.items }
    {
        RopeList { items }
    }

    /// Its items, in order.
    pub fn items(&self) -> &[RopeId]
        ensures { result.now ≡ self.now }
    {
        &self.items
    }
}

/// Keys.
#[derive(Drop)]
pub struct KeyList {
    items: Vec<Key>,
}

impl Model for KeyList {
    ghost use Rattle.std.specs.Prelude.{List, ℕ};

    ghost Value = { List (List ℕ) };

    ghost view = { λ a. a.items.items };
}

impl KeyList {
    /// The list of these items. It takes no memory.
    pub fn of(items: Vec<Key>) -> KeyList
        ensures { result ≡ items.items }
    {
        KeyList { items }
    }

    /// Its items, in order.
    pub fn items(&self) -> &[Key]
        ensures { result.now ≡ self.now }
    {
        &self.items
    }
}

/// An interval of `len` samples from the place `start` on.
#[derive(Clone, Copy, Debug, PartialEq, Eq)]
pub struct Span {
    pub start: u32,
    pub len: u32,
}

/// The intervals of talk, in order.
#[derive(Drop)]
pub struct TalkList {
    items: Vec<Span>,
}

impl Model for TalkList {
    ghost use Rattle.std.specs.Prelude.{List};
    ghost use Rattle.voice_model.specs.declared.lists.Span.{Span};

    ghost Value = { List Span };

    ghost view = { λ a. a.items.items };
}

impl TalkList {
    /// The list of these items. It takes no memory.
    pub fn of(items: Vec<Span>) -> TalkList
        ensures { result ≡ items.items }
    {
        TalkList { items }
    }

    /// Its items, in order.
    pub fn items(&self) -> &[Span]
        ensures { result.now ≡ self.now }
    {
        &self.items
    }
}

/// Pieces.
#[derive(Drop)]
pub struct PieceList {
    items: Vec<Piece>,
}

impl Model for PieceList {
    ghost use Rattle.std.specs.Prelude.{List};
    ghost use Rattle.voice_units.specs.declared.Piece.{Piece};

    ghost Value = { List Piece };

    ghost view = { λ a. a.items.items };
}

impl PieceList {
    /// The list of these items. It takes no memory.
    pub fn of(items: Vec<Piece>) -> PieceList
        ensures { result ≡ items.items }
    {
        PieceList { items }
    }

    /// Its items, in order.
    pub fn items(&self) -> &[Piece]
        ensures { result.now ≡ self.now }
    {
        &self.items
    }

    /// Its items, in order, moved out of it. It takes no memory.
    pub fn into_items(self) -> Vec<Piece>
        ensures { result.items ≡ self }
    {
        self.items
    }
}

/// Addresses of blocks.
#[derive(Drop)]
pub struct AddressList {
    items: Vec<u32>,
}

impl Model for AddressList {
    ghost use Rattle.std.specs.Prelude.{List, ℕ};

    ghost Value = { List ℕ };

    ghost view = { λ a. a.items.items };
}

impl AddressList {
    /// The list of these items. It takes no memory.
    pub fn of(items: Vec<u32>) -> AddressList
        ensures { result ≡ items.items }
    {
        AddressList { items }
    }

    /// Its items, in order.
    pub fn items(&self) -> &[u32]
        ensures { result.now ≡ self.now }
    {
        &self.items
    }
}

/// A block of a file and its address.
#[derive(Clone, Copy, Debug, PartialEq, Eq)]
pub struct Pair {
    pub index: u32,
    pub address: u32,
}

/// Blocks of a file and their addresses.
#[derive(Drop)]
pub struct PairList {
    items: Vec<Pair>,
}

impl Model for PairList {
    ghost use Rattle.std.specs.Prelude.{List};
    ghost use Rattle.voice_model.specs.declared.lists.Pair.{Pair};

    ghost Value = { List Pair };

    ghost view = { λ a. a.items.items };
}

impl PairList {
    /// The list of these items. It takes no memory.
    pub fn of(items: Vec<Pair>) -> PairList
        ensures { result ≡ items.items }
    {
        PairList { items }
    }

    /// Its items, in order.
    pub fn items(&self) -> &[Pair]
        ensures { result.now ≡ self.now }
    {
        &self.items
    }
}

/// The greatest loudness of each window, 0 to 127.
#[derive(Drop)]
pub struct PeakList {
    items: Vec<u8>,
}

impl Model for PeakList {
    ghost use Rattle.std.specs.Prelude.{List, ℕ};

    ghost Value = { List ℕ };

    ghost view = { λ a. a.items.items };
}

impl PeakList {
    /// The list of these items. It takes no memory.
    pub fn of(items: Vec<u8>) -> PeakList
        ensures { result ≡ items.items }
    {
        PeakList { items }
    }

    /// Its items, in order.
    pub fn items(&self) -> &[u8]
        ensures { result.now ≡ self.now }
    {
        &self.items
    }
}

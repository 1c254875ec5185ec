//! Payloads, with their places and without.

ghost use Rattle.std.specs.Prelude.{◌≡◌, ◌+◌, ◌<◌, ◌≤◌, ◌^◌, ◌++◌, ◌∷◌, [], ℕ, List, length, OnOk, OnErr, MatchOption, slice_get, Some, None};
ghost use Rattle.voice_journal.specs.Readings.{framed_size, record_at, views};

use std::alloc::Global;
use std::marker::Model;
use voice_units::NoMemory;

/// Where a record's gate stands on the disk, and which part of some bytes its payload is.
#[derive(Clone, Copy)]
pub struct Span {
    pub place: u64,
    pub from: usize,
    pub len: usize,
}

/// Records: the byte of the disk at which each one's gate stands, and its payload. Payloads are lent. Contracts see the list of the records.
#[derive(Drop)]
pub struct RecordList {
    pub(crate) bytes: Vec<u8>,
    pub(crate) spans: Vec<Span>,
}

impl Model for RecordList {
    ghost use Rattle.std.specs.Prelude.{List, length};
    ghost use Rattle.disk_areas.specs.Areas.{Record};

    ghost Value = { List Record };

    ghost use Rattle.voice_journal.specs.Lent.{lent, AreWithin};

    ghost view = { λ a. lent a.bytes.items a.spans.items };

    ghost invariant = { λ a. AreWithin (length a.bytes.items) a.spans.items };
}

impl RecordList {
    /// No record.
    pub fn new(alloc: Global) -> RecordList
        ensures { result ≡ [] }
    {
        RecordList {
            bytes: Vec::new(alloc),
            spans: Vec::new(alloc),
        }
    }

    /// Adds a record behind the others, with a copy of its payload. After `NoMemory` nothing is changed.
    pub fn push(&mut self, place: u64, payload: &[u8]) -> Result<(), NoMemory>
        ensures ok { OnOk result (self.new ≡ self.old ++ record_at place payload.now ∷ []) }
        ensures err { OnErr result (self.new ≡ self.old) }
    {
        let from = self.bytes.len();
        let len = payload.len();
        self.bytes.extend_from_slice(payload)?;
        self.spans.push(Span { place, from, len })?;
        Ok(())
    }

    /// How many records there are.
    pub fn len(&self) -> usize
        ensures { result ≡ length self.now }
    {
        self.spans.len()
    }

    /// The place of the record of this index, counted from 0; `None` exactly where there are not so many.
    pub fn place(&self, k: u32) -> Option<u64>
        ensures { MatchOption result (slice_get self.now k ≡ None) (λ place. (payload : List ℕ) × slice_get self.now k ≡ Some (record_at place payload)) }
    {
        match self.spans.get(k as usize) {
            Some(span) => Some(span.place),
            None => None,
        }
    }

    /// The payload of the record of this index, counted from 0; `None` exactly where there are not so many.
    pub fn get(&self, k: u32) -> Option<&[u8]>
        ensures { MatchOption result (slice_get self.now k ≡ None) (λ bytes. (place : ℕ) × slice_get self.now k ≡ Some (record_at place bytes.now)) }
    {
        match self.spans.get(k as usize) {
            Some(span) => Some(&self.bytes[span.from..span.from + span.len]),
            None => None,
        }
    }
}

/// Payloads for an area. Contracts see the list of their bytes.
#[derive(Drop)]
pub struct Payloads {
    items: Vec<Vec<u8>>,
    size: u64,
}

impl Model for Payloads {
    ghost use Rattle.std.specs.Prelude.{◌≡◌, List, ℕ};
    ghost use Rattle.voice_journal.specs.Readings.{framed_size, views};

    ghost Value = { List (List ℕ) };

    ghost view = { λ a. views a.items.items };

    ghost invariant = { λ a. a.size ≡ framed_size (views a.items.items) };
}

impl Payloads {
    /// No payload.
    pub fn new(alloc: Global) -> Payloads
        ensures { result ≡ [] }
    {
        Payloads {
            items: Vec::new(alloc),
            size: 0,
        }
    }

    /// Adds a payload behind the others. After `NoMemory` nothing is changed.
    pub fn push(&mut self, bytes: Vec<u8>) -> Result<(), NoMemory>
        requires { framed_size self.old + 5 + length bytes.items < 2 ^ 64 }
        ensures ok { OnOk result (self.new ≡ self.old ++ bytes.items ∷ []) }
        ensures err { OnErr result (self.new ≡ self.old) }
    {
        let more = 5 + bytes.len() as u64;
        self.items.push(bytes)?;
        self.size += more;
        Ok(())
    }

    /// The bytes that they take as records, with their gates and lengths.
    pub fn size(&self) -> u64
        ensures { result ≡ framed_size self.now }
    {
        self.size
    }

    // The payloads one by one.
    pub(crate) fn items(&self) -> &[Vec<u8>]
        ensures { views result.now ≡ self.now }
    {
        &self.items
    }

    /// The payload of this index, counted from 0; `None` exactly where there are not so many.
    pub fn get(&self, k: u32) -> Option<&[u8]>
        ensures { MatchOption result (slice_get self.now k ≡ None) (λ bytes. slice_get self.now k ≡ Some bytes.now) }
    {
        match self.items.get(k as usize) {
            Some(bytes) => Some(bytes),
            None => None,
        }
    }
}

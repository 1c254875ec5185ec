//! The journal: where it writes next.

ghost use Rattle.std.specs.Prelude.{◌≡◌, ◌↔◌, ◌+◌, ◌-◌, ◌≤◌, ◌<◌, ◌^◌, ℕ, length, IsTrue, IsSome, not};
ghost use Rattle.voice_journal.specs.Places.{area_start};

use std::marker::Model;
use voice_units::Shape;

/// Which area is current, its epoch, and the offset in it at which the next record's gate stands.
#[derive(Clone, Copy, Debug, PartialEq, Eq)]
pub struct Seat {
    pub second: bool,
    pub epoch: u64,
    pub gate: u32,
}

/// What is in doubt: a record with a payload of so many bytes behind the others, or the other area with the offset of the gate behind its records.
#[derive(Clone, Copy, Debug, PartialEq, Eq)]
pub enum Doubt {
    Record(u32),
    Area(u32),
}

/// The journal of a disk. It holds room for the bytes of one area, so that an append, a landing and a switch take no memory.
#[derive(Drop)]
pub struct Journal {
    pub(crate) shape: Shape,
    pub(crate) seat: Seat,
    pub(crate) doubt: Option<Doubt>,
    pub(crate) is_closed: bool,
    pub(crate) room: Vec<u8>,
}

impl Model for Journal {
    ghost use Rattle.std.specs.Prelude.{◌≡◌, ◌≤◌, ◌<◌, ◌^◌, length};
    ghost use Rattle.std.specs.Option.{ForSome};
    ghost use Rattle.voice_journal.specs.Places.{JournalValue, FitsIn};

    ghost Value = { JournalValue };

    ghost view = { λ a. record { shape = a.shape; seat = a.seat; doubt = a.doubt; is_closed = a.is_closed } };

    ghost invariant = { λ a. (16 ≤ a.seat.gate) × (a.seat.gate < a.shape.area) × (a.seat.epoch ≤ 2 ^ 48) × (length a.room.items ≡ a.shape.area) × ForSome a.doubt (FitsIn a.shape a.seat) };
}

// Where an area begins.
pub fn start_of(shape: &Shape, second: bool) -> u64
    ensures value { result ≡ area_start shape.now second }
    ensures within { result + shape.now.area ≤ 64 + shape.now.area + shape.now.area }
{
    if second {
        64 + u64::from(shape.area)
    } else {
        64
    }
}

impl Journal {
    /// The shape of the disk.
    pub fn shape(&self) -> Shape
        ensures { result ≡ self.now.shape }
    {
        self.shape
    }

    /// How many bytes the next record may take in the current area, with its gate and length.
    pub fn left(&self) -> u64
        ensures value { result ≡ self.now.shape.area - 1 - self.now.seat.gate }
        ensures within { result + self.now.seat.gate + 1 ≡ self.now.shape.area }
        ensures from { 16 ≤ self.now.seat.gate }
    {
        u64::from(self.shape.area - 1 - self.seat.gate)
    }

    /// The epoch of the current area, at most 2^48.
    pub fn epoch(&self) -> u64
        ensures value { result ≡ self.now.seat.epoch }
        ensures most { result ≤ 2 ^ 48 }
    {
        self.seat.epoch
    }

    /// Whether a change is in doubt.
    pub fn in_doubt(&self) -> bool
        ensures { IsTrue result ↔ IsSome self.now.doubt }
    {
        self.doubt.is_some()
    }
}

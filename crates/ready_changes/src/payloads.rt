//! Changes as the journal spells them.

ghost use Rattle.std.specs.Prelude.{◌≡◌, true, IfOk};
ghost use Rattle.voice_model.specs.Spelling.{spelling, keeps_grammar};

use arrayvec::ArrayVec;
use change_codec::{SHORT, put, size};
use std::alloc::Global;
use std::marker::Model;
use voice_model::{Change, RopeList};
use voice_units::NoMemory;

/// Where the bytes of a change stand.
#[derive(Drop)]
enum Kept {
    Long(Vec<u8>),
    Short(ArrayVec<u8, SHORT>),
}

/// The bytes that spell a change, in memory, or in place where they are few. Contracts see a record of their list.
#[derive(Drop)]
pub struct Payload {
    kept: Kept,
}

impl Model for Payload {
    ghost use Rattle.ready_changes.specs.Bytes.{Bytes, bytes_kept};

    ghost Value = { Bytes };

    ghost view = { λ p. record { items = bytes_kept p.kept } };
}

impl Payload {
    /// Bytes that stand in memory.
    pub(crate) fn long(bytes: Vec<u8>) -> Payload
        ensures { result.items ≡ bytes.items }
    {
        Payload {
            kept: Kept::Long(bytes),
        }
    }

    /// Bytes that stand in place.
    pub(crate) fn short(bytes: ArrayVec<u8, SHORT>) -> Payload
        ensures { result.items ≡ bytes.items }
    {
        Payload {
            kept: Kept::Short(bytes),
        }
    }

    /// The bytes.
    pub fn as_slice(&self) -> &[u8]
        ensures { result.now ≡ self.now.items }
    {
        match &self.kept {
            Kept::Long(bytes) => bytes.as_slice(),
            Kept::Short(bytes) => bytes.as_slice(),
        }
    }
}

/// The bytes that spell a change.
pub(crate) fn spelled(alloc: Global, change: &Change) -> Result<Payload, NoMemory>
    requires { keeps_grammar change.now ≡ true }
    ensures { IfOk result (λ payload. payload.items ≡ spelling change.now) }
{
    let mut bytes = Vec::with_capacity(alloc, size(change) as usize)?;
    put(change, &mut bytes)?;
    Ok(Payload::long(bytes))
}

/// The bytes that spell the change of a sweep of these ropes.
pub(crate) fn sweep_payload(alloc: Global, ropes: &RopeList) -> Result<Payload, NoMemory>
    requires { keeps_grammar (Change.Swept ropes.now) ≡ true }
    ensures { IfOk result (λ payload. payload.items ≡ spelling (Change.Swept ropes.now)) }
{
    let list = RopeList::of(Vec::from_slice(alloc, ropes.items())?);
    spelled(alloc, &Change::Swept(list))
}

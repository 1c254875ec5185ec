//! Parts of a durable state, and changes that are tried on them.

ghost use Rattle.std.specs.Prelude.{◌≡◌, is_some, IfOk};
ghost use Rattle.recovery.specs.Shown.{IsParts};
ghost use Rattle.voice_model.specs.Replay.{brings};

use change_codec::get;
use recovery::Parts;
use std::alloc::Global;
use voice_model::Change;
use voice_units::{NoMemory, Shape};

/// Where bytes spell no change of a running server, or memory wants.
pub const REFUSED: u64 = 999;

/// The parts of a disk that was just formatted.
pub fn empty_parts(alloc: Global, shape: &Shape) -> Result<Parts, NoMemory>
    ensures { IfOk result (λ parts. IsParts shape.now parts) }
{
    Parts::empty(alloc, shape)
}

// Whether a running server makes changes of this kind.
fn is_of_a_server(change: &Change) -> bool
    ensures { result ≡ is_some (brings change.now) }
{
    match change {
        Change::Base(..)
        | Change::Base2(..)
        | Change::File(..)
        | Change::File2(..)
        | Change::Rope(..)
        | Change::Rope2(..) => false,
        _ => true,
    }
}

/// Whether the change that bytes spell was done: 1 or 0, or `REFUSED`.
pub fn tried(parts: &mut Parts, alloc: Global, shape: &Shape, bytes: &[u8]) -> u64
    requires { IsParts shape.now parts.old }
    ensures { IsParts shape.now parts.new }
{
    let Ok(change) = get(alloc, bytes) else {
        return REFUSED;
    };
    if !is_of_a_server(&change) {
        return REFUSED;
    }
    if parts.ropes.count() > 999 {
        return REFUSED;
    }
    if parts.interests.is_full() {
        return REFUSED;
    }
    match parts.apply(alloc, shape, &change) {
        Ok(done) => u64::from(done),
        Err(_) => REFUSED,
    }
}

//! Tables of a small disk, filled as replay fills them.

ghost use Rattle.std.specs.Prelude.{◌≡◌, is_some, IfOk};
ghost use Rattle.voice_model.specs.Replay.{brings};
ghost use Rattle.recovery.specs.Shown.{IsParts};

use change_codec::get;
use recovery::Parts;
use std::alloc::Global;
use voice_model::Change;
use voice_units::{BadShape, Graces, NoMemory, Shape};

// 16 blocks of 8 samples. A rope that lost a row of class Until waits so long.
pub(crate) fn small_shape(until: u32) -> Result<Shape, BadShape> {
    let graces = Graces {
        common: 60,
        held: 60,
        until,
        listed: 60,
    };
    Shape::new(2, 8, 16, 512, graces, 4, 1216)
}

// No rope and no row.
pub(crate) fn empty_parts(alloc: Global, shape: &Shape) -> Result<Parts, NoMemory>
    ensures { IfOk result (λ parts. IsParts shape.now parts) }
{
    Parts::empty(alloc, shape)
}

// Whether a running server makes changes of this kind.
fn is_of_a_server(change: &Change) -> bool
    ensures { result ≡ is_some (brings change.now) }
{
    match change {
        Change::Base(..)
        | Change::Base2(..)
        | Change::File(..)
        | Change::File2(..)
        | Change::Rope(..)
        | Change::Rope2(..) => false,
        _ => true,
    }
}

// Tries the change that bytes spell, as replay does.
pub(crate) fn replayed(parts: &mut Parts, alloc: Global, shape: &Shape, bytes: &[u8])
    requires { IsParts shape.now parts.old }
    ensures { IsParts shape.now parts.new }
{
    let Ok(change) = get(alloc, bytes) else {
        return;
    };
    if !is_of_a_server(&change) {
        return;
    }
    if parts.ropes.count() > 999 {
        return;
    }
    if parts.interests.is_full() {
        return;
    }
    let _done = parts.apply(alloc, shape, &change);
}

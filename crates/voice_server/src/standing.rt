//! The value that callers take turns at.

use turnstile::Stands;
use voice_outside::Disk;
use voice_store::Store;

/// A store between turns.
pub struct Standing<D: Disk> {
    pub(crate) store: Store<D>,
}

impl<D: Disk> Stands for Standing<D> {
    ghost use Rattle.voice_server.specs.Kept.{IsKept, history_of, origin_of};

    type Origin = crate::born::Born<D>;

    ghost origin = { origin_of };

    ghost history = { history_of };

    ghost stands = { λ s. IsKept D.told s.store };
}

//! What never changes of a store.

use frame_pool::Pool;
use voice_model::Tapes;

/// What never changes of a store, as contracts see it: the disk as it was opened, the tapes, and which pool its leases are of. No value of it is made.
pub struct Born<D> {
    pub disk: D,
    pub tapes: Tapes,
    pub pool: Pool,
}

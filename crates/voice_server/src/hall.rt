//! The server.

use crate::standing::Standing;
use turnstile::{Stands, Turnstile};

/// Callers at one value. Generic in the value, so that the check finds it to be `Sync`.
pub struct Hall<T: Stands> {
    pub(crate) turnstile: Turnstile<T>,
}

/// Callers at one store.
pub type Server<D> = Hall<Standing<D>>;

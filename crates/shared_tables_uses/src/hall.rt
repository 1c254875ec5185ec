// What callers on threads share. Generic, so that the check finds it to be `Sync`.
use turnstile::{Stands, Turnstile};

/// Callers at one value.
pub struct Hall<T: Stands> {
    pub turnstile: Turnstile<T>,
}

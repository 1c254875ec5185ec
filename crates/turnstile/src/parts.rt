// The turnstile and its passes.
use crate::stands::Stands;
use crate::table::{Gate, Place};
use std::marker::Model;

/// A caller's pass. Contracts see its number, what it knows of the history, and whether its caller has the value.
pub struct Pass<T: Stands> {
    pub(crate) caller: u16,
    pub(crate) seat: Place<T>,
}

impl<T: Stands> Model for Pass<T> {
    ghost use Rattle.turnstile.specs.Shown.{ShownPass};

    ghost Value = { ShownPass T };

    ghost use Rattle.turnstile.specs.Seats.{shown_pass, IsAtRest};

    ghost view = { λ p. shown_pass p.caller p.seat };

    ghost invariant = { λ p. IsAtRest p.caller p.seat };
}

/// One value, at which callers take turns. Contracts see the value that it was made with, and for how many callers.
pub struct Turnstile<T: Stands> {
    pub(crate) gate: Gate<T>,
}

impl<T: Stands> Model for Turnstile<T> {
    ghost use Rattle.turnstile.specs.Shown.{ShownTurnstile};

    ghost Value = { ShownTurnstile T };

    ghost use Rattle.turnstile.specs.Gates.{shown_turnstile};

    ghost view = { λ t. shown_turnstile t.gate };
}

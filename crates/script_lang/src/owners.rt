//! Which caller serves each lane.

ghost use Rattle.std.specs.Prelude.{◌≡◌, ℕ, [], ◌≤◌, ◌<◌, IfSome};
ghost use Rattle.script_lang.specs.Owners.{is_owned, with_owner, no_owner};

use std::marker::Model;
use voice_units::Lane;

/// The caller that serves each of the 16 lanes, 0 for none.
#[derive(Drop)]
pub struct Owners {
    callers: [u16; 16],
}

impl Model for Owners {
    ghost use Rattle.std.specs.Prelude.{List, ℕ};

    ghost Value = { List ℕ };

    ghost view = { λ o. o.callers };
}

impl Owners {
    /// No lane is served.
    pub fn new() -> Owners
        ensures { result ≡ no_owner }
    {
        Owners { callers: [0; 16] }
    }

    /// Whether another caller serves the lane.
    pub fn is_taken(&self, caller: u16, lane: Option<Lane>) -> bool
        requires { IfSome lane (λ n. n < 16) }
        ensures { result ≡ is_owned self.now caller lane }
    {
        match lane {
            Some(lane) => {
                let owner = self.callers[usize::from(lane.0)];
                owner != 0 && owner != caller
            }
            None => false,
        }
    }

    /// The caller serves the lane.
    pub fn note(&mut self, caller: u16, lane: Option<Lane>)
        requires { IfSome lane (λ n. n < 16) }
        ensures { self.new ≡ with_owner self.old caller lane }
    {
        if let Some(lane) = lane {
            self.callers[usize::from(lane.0)] = caller;
        }
    }
}

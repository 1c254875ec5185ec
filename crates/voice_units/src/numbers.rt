//! Numbers with their ranges. Contracts see each as a natural number.

ghost use Rattle.std.specs.Prelude.{◌≡◌, ℕ, ◌^◌, ◌≤◌, ◌↔◌, IsSome, IfSome};

use std::marker::Model;

/// The number of a rope, from 0 to 2^48. Rope 0 is never live.
#[derive(Clone, Copy, Debug, PartialEq, Eq, PartialOrd, Ord, Hash)]
pub struct RopeId(pub u64);

impl Model for RopeId {
    ghost use Rattle.std.specs.Prelude.{ℕ, ◌≤◌, ◌^◌};

    ghost Value = { ℕ };

    ghost view = { λ r. r.0 };

    ghost invariant = { λ r. r.0 ≤ 2 ^ 48 };

    ghost inverse = { λ n. record { 0 = n } };
}

impl RopeId {
    /// The rope of a number; `None` above 2^48.
    pub fn new(number: u64) -> Option<RopeId>
        ensures value { IfSome result (λ id. id ≡ number) }
        ensures exact { IsSome result ↔ (number ≤ 2 ^ 48) }
    {
        if number <= 1 << 48 {
            Some(RopeId(number))
        } else {
            None
        }
    }

    /// Its number, from 0 to 2^48.
    pub fn number(self) -> u64
        ensures value { result ≡ self }
        ensures most { result ≤ 2 ^ 48 }
    {
        self.0
    }
}

/// The number of a job of play, from 1 on.
#[derive(Clone, Copy, Debug, PartialEq, Eq, PartialOrd, Ord, Hash)]
pub struct JobId(pub u64);

impl Model for JobId {
    ghost Value = { ℕ };

    ghost view = { λ j. j.0 };

    ghost inverse = { λ n. record { 0 = n } };
}

/// A lane: one conversation's telephone, numbered from 0.
#[derive(Clone, Copy, Debug, PartialEq, Eq, PartialOrd, Ord, Hash)]
pub struct Lane(pub u16);

impl Model for Lane {
    ghost Value = { ℕ };

    ghost view = { λ l. l.0 };

    ghost inverse = { λ n. record { 0 = n } };
}

/// A moment, from 0 to 2^40, in a unit that the callers agree on.
#[derive(Clone, Copy, Debug, PartialEq, Eq, PartialOrd, Ord, Hash)]
pub struct Moment(pub u64);

impl Model for Moment {
    ghost use Rattle.std.specs.Prelude.{ℕ, ◌≤◌, ◌^◌};

    ghost Value = { ℕ };

    ghost view = { λ m. m.0 };

    ghost invariant = { λ m. m.0 ≤ 2 ^ 40 };

    ghost inverse = { λ n. record { 0 = n } };
}

impl Moment {
    /// The moment of a number; `None` above 2^40.
    pub fn new(number: u64) -> Option<Moment>
        ensures value { IfSome result (λ moment. moment ≡ number) }
        ensures exact { IsSome result ↔ (number ≤ 2 ^ 40) }
    {
        if number <= 1 << 40 {
            Some(Moment(number))
        } else {
            None
        }
    }

    /// Its number, from 0 to 2^40.
    pub fn number(self) -> u64
        ensures value { result ≡ self }
        ensures most { result ≤ 2 ^ 40 }
    {
        self.0
    }
}

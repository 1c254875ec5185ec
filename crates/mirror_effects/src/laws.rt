//! Laws of what packets bring. Each is the contract of a function, so that the check keeps it and a proof above may cite it.

ghost use Rattle.mirror_effects.specs.Laws.{BodiesDo, MayBeTaken, FrontsGrow};

/// The change of a body that is not strange may follow, and does the one effect that the body brings.
pub fn bodies_do()
    ensures { BodiesDo }
{}

/// The body of a change that may follow is not strange, and brings that change.
pub fn may_be_taken()
    ensures { MayBeTaken }
{}

/// The packet of the next number makes a front of a legal list longer by the next change.
pub fn fronts_grow()
    ensures { FrontsGrow }
{}

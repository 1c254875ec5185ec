//! Laws of the passages that lanes hold, which the contracts of the layer above lean on.

ghost use Rattle.lane_calls.specs.Laws.{PassagesHeld, FewHeld};

/// The passages of a state, as the lanes of the program hold them.
pub fn passages_held()
    ensures { PassagesHeld }
{}

/// The lanes of a valid state hold few passages.
pub fn few_held()
    ensures { FewHeld }
{}

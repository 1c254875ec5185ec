//! The law of refused places. It is the contract of a function, so that the check keeps it and a proof above may cite it.

ghost use Rattle.change_codec.specs.Laws.{PlacesAreExact};

/// A place is refused exactly where bytes spell no change.
pub fn places_are_exact()
    ensures { PlacesAreExact }
{}

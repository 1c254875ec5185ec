//! Laws of what a mirror's disk means, for the crates above. Each is the contract of a function, so that the check keeps it and a proof above may cite it.

ghost use Rattle.mirror_readings.specs.Laws.{MirrorOpens, MirrorOpensEmpty, MirrorDamages, MirrorRebuildsValid, MirrorRebuildsOnce, MirrorRebuildsMore, MirrorRebuildsBase};

/// An image of version 2 that reads is what its numbered records rebuild, filled from it, at the last number.
pub fn opens()
    ensures { MirrorOpens }
{}

/// A disk that was just formatted is an empty mirror at position 0.
pub fn opens_empty()
    ensures { MirrorOpensEmpty }
{}

/// What the journal finds damaged, version 1, and what replay refuses, is damage at that place.
pub fn damages()
    ensures { MirrorDamages }
{}

/// What numbered records rebuild is valid and placed, and the position is bounded.
pub fn rebuilds_valid()
    ensures { MirrorRebuildsValid }
{}

/// Numbered records rebuild one thing and one position.
pub fn rebuilds_once()
    ensures { MirrorRebuildsOnce }
{}

/// A legal change with the next number acts on what numbered records rebuild.
pub fn rebuilds_more()
    ensures { MirrorRebuildsMore }
{}

/// The base of what is rebuilt, under the position, rebuilds it again at that position.
pub fn rebuilds_base()
    ensures { MirrorRebuildsBase }
{}

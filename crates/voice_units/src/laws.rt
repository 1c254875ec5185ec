//! Laws of pieces, windows and blocks. Each is the contract of a function, so that the check keeps it and a proof above may cite it.

ghost use Rattle.voice_units.specs.Laws.{PiecesOfARope, WindowsOfARope, DistinctPairs};

/// The pieces of a rope are the one list in normal form that names its places; joining and cutting pieces joins and cuts the places.
pub fn pieces_of_a_rope()
    ensures { PiecesOfARope }
{}

/// A window is the longest front of what is not heard yet that has at most four stretches, and it lies in its passage.
pub fn windows_of_a_rope()
    ensures { WindowsOfARope }
{}

/// How many distinct blocks a list has depends only on which blocks there are.
pub fn distinct_pairs()
    ensures { DistinctPairs }
{}

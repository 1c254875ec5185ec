//! Laws of notes and indexes, and the law by which what notes name is kept. Each is the contract of a function, so that the check keeps it and a proof above may cite it.

ghost use Rattle.voice_notes.specs.Kept.{KeptLaw};
ghost use Rattle.voice_notes.specs.Laws.{AnchorsStand, PlacesAreFirst, KeysComeOnce, LinesAreFirst};

/// Where a `listed` row of a live rope stands and no change is in doubt, the rope stays live in every history without a Forget of the row and without a Census that lacks its key.
pub fn kept_law()
    ensures { KeptLaw }
{}

/// What stands at the front of some bytes is an anchor of one key, or `[[voice:` without one, or neither.
pub fn anchors_stand()
    ensures { AnchorsStand }
{}

/// The bad place of a note is the first at which `[[voice:` stands and no anchor does.
pub fn places_are_first()
    ensures { PlacesAreFirst }
{}

/// A list grows by the keys that it lacks, each once, in the order in which they were found.
pub fn keys_come_once()
    ensures { KeysComeOnce }
{}

/// The bad line of an index is the first that is neither quiet nor one FILE, or line 65,536.
pub fn lines_are_first()
    ensures { LinesAreFirst }
{}

//! Laws of what a journal's readings mean, for the crates above. Each is the contract of a function, so that the check keeps it and a proof above may cite it.

ghost use Rattle.journal_readings.specs.Laws.{Opens, OpensEmpty, Damages, RebuildsValid, RebuildsOnce, RebuildsMore, RebuildsBase};

/// An image that reads opens as what its records rebuild, filled from it.
pub fn opens()
    ensures { Opens }
{}

/// A disk that was just formatted opens as the empty state of its shape.
pub fn opens_empty()
    ensures { OpensEmpty }
{}

/// What the journal finds damaged, or replay refuses, is damage at that place.
pub fn damages()
    ensures { Damages }
{}

/// What a journal's records rebuild is valid and placed.
pub fn rebuilds_valid()
    ensures { RebuildsValid }
{}

/// A journal's records rebuild one thing.
pub fn rebuilds_once()
    ensures { RebuildsOnce }
{}

/// A legal change behind a journal's records acts on what they rebuild.
pub fn rebuilds_more()
    ensures { RebuildsMore }
{}

/// The base of what is rebuilt rebuilds it again.
pub fn rebuilds_base()
    ensures { RebuildsBase }
{}

//! Laws of filling in what is rebuilt, and of the sizes of changes. Each is the contract of a function, so that the check keeps it and a proof above may cite it.

ghost use Rattle.fillings.specs.Laws.{FillsAlike, Brings, Alters, SizesOfChanges};

/// Images that differ only in the journal's areas, or only where no place is, fill alike.
pub fn fills_alike()
    ensures { FillsAlike }
{}

/// A change that is replayed does, filled in, what it did in the server.
pub fn brings()
    ensures { Brings }
{}

/// The change of a call that nothing refuses may be replayed, and does what the call did.
pub fn alters()
    ensures { Alters }
{}

/// What an edit and a recording add to the size of the base, and how many blocks what is rebuilt uses.
pub fn sizes_of_changes()
    ensures { SizesOfChanges }
{}

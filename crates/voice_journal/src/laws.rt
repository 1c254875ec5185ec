//! Laws that crates above rest on. Each is the contract of a function, so that the check keeps it and a proof above may cite it.

ghost use Rattle.voice_journal.specs.Laws.{BlocksLieApart, DoubtReads};

/// A change of data blocks leaves what each image reads as, and what is in doubt.
pub fn blocks_lie_apart()
    ensures { BlocksLieApart }
{}

/// An image in doubt reads as before or as after.
pub fn doubt_reads()
    ensures { DoubtReads }
{}

//! Laws of edits. Each is the contract of a function, so that the check keeps it and a proof above may cite it.

ghost use Rattle.edits.specs.Shown.{JournalIsAskedLast, EditsAreOfLiveRopes};

/// The journal's condition is the last one of a call.
pub fn journal_is_asked_last()
    ensures { JournalIsAskedLast }
{}

/// A rope that an edit makes uses only blocks that live ropes use.
pub fn edits_are_of_live_ropes()
    ensures { EditsAreOfLiveRopes }
{}

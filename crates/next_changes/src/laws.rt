//! Laws of changes that are ready. Each is the contract of a function, so that the check keeps it and a proof above may cite it.

ghost use Rattle.next_changes.specs.Laws.{NextGives, ReadyIsNext};

/// A change that is ready may follow, is spelled in its payload, and leaves the tables showing what was rebuilt before it.
pub fn next_gives()
    ensures { NextGives }
{}

/// What is ready of a call that nothing refuses may follow.
pub fn ready_is_next()
    ensures { ReadyIsNext }
{}

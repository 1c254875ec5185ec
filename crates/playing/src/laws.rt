//! Laws of the definitions, which the contracts of the layer above lean on.

ghost use Rattle.playing.specs.Held.{HeldPassages};
ghost use Rattle.playing.specs.Shown.{FeedsAreServed, FeedsReach, WindowsComeNext, PlaysAndStops};

/// A Play and a Stop of the definitions, on the jobs of the program.
pub fn plays_and_stops()
    ensures { PlaysAndStops }
{}

/// A Feed of the definitions that nothing refuses, on the jobs of the program.
pub fn feeds_are_served()
    ensures { FeedsAreServed }
{}

/// When a Feed of the definitions reaches a device, and what a fault leaves.
pub fn feeds_reach()
    ensures { FeedsReach }
{}

/// The samples of a window, as a part of the passage.
pub fn windows_come_next()
    ensures { WindowsComeNext }
{}

/// The passages that the lanes hold, as their jobs change.
pub fn held_passages()
    ensures { HeldPassages }
{}

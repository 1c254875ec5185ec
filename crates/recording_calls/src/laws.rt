//! Laws of the recordings that lanes have open, which the contracts of the layer above lean on.

ghost use Rattle.recording_calls.specs.Laws.{ShownByTakings};

/// A state whose lanes have the same open recordings as another, whatever their jobs are, is shown by the same recordings.
pub fn shown_by_takings()
    ensures { ShownByTakings }
{}

// What a turnstile asks of its value.

/// The meanings of a value that callers take turns at. The code has no method for them.
pub trait Stands: Send {
    ghost use Rattle.std.specs.Prelude.{List};
    ghost use Rattle.voice_model.specs.declared.calls.Entry.{Entry};

    /// What never changes, as contracts see it.
    type Origin;

    ghost origin: { Self → Self.Origin };

    ghost history: { Self → List Entry };

    /// What holds of the value between turns: that its history is legal from its origin, and what else the user needs.
    ghost stands: { Self → Type 0 };
}

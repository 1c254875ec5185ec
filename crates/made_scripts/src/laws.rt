//! The law of generated scripts. It is the contract of a function, so that the check keeps it and a proof above may cite it.

ghost use Rattle.made_scripts.specs.Laws.{MadeIsRead};

/// A generated script is in the language of scripts.
pub fn made_is_read()
    ensures { MadeIsRead }
{}

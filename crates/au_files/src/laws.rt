//! Laws of the definitions.

ghost use Rattle.au_files.specs.Au.{ReadsBack};

/// A file of samples is not refused, and has these samples.
pub fn reads_back()
    ensures { ReadsBack }
{}

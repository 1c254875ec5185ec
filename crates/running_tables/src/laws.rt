//! Laws of the tables of a running manager. They are the contract of a function, so that the check keeps them and a proof above may cite them.

ghost use Rattle.running_tables.specs.Laws.{RunsLaws};

/// Tables that show what replay gives are those of a running manager with nothing held, each step of a passage, of a recording and of a change leaves them so, and the free addresses of tables that show a state are as many as its free blocks.
pub fn runs_laws()
    ensures { RunsLaws }
{}

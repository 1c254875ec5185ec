//! Which calls the store can do: the definition `is_built` of `specs/Built`, which the store, the script language and the callers share. The list grows with the store, and goes when all calls are built.
#![tactic(auto)]

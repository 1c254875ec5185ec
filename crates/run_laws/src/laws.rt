//! Laws of two runs of one script. Each is the contract of a function, so that the check keeps it and a proof above may cite it.

ghost use Rattle.run_laws.specs.Laws.{HistoriesAreDetermined, CalmRunsTellOfNoFault, RunsPrintAlike};

use voice_outside::Disk;

/// Two histories of the same lines from one state, in which no entry tells of a fault, are the same but for their moments.
pub fn histories_are_determined()
    ensures { HistoriesAreDetermined }
{}

/// Where no count of faults rose, no entry of a finished run tells of a fault.
pub fn calm_runs_tell_of_no_fault<D: Disk>(old: &D, new: &D)
    ensures { CalmRunsTellOfNoFault (D.told old.now) (D.told new.now) }
{}

/// Two finished runs of one script, over the same files and from the same bytes, print the same where no entry tells of a fault.
pub fn runs_print_alike<D: Disk, E: Disk>(old: &D, new: &D, other_old: &E, other_new: &E)
    ensures { RunsPrintAlike (D.told old.now) (D.told new.now) (E.told other_old.now) (E.told other_new.now) }
{}

//! Laws of these changes. Each is the contract of a function, so that the check keeps it and a proof above may cite it.

ghost use Rattle.ready_changes.specs.Laws.{ChangesOfCalls, BaseGrowsByRows, AllStayInUse};

/// The changes that are made ready are those that the calls make.
pub fn changes_of_calls()
    ensures { ChangesOfCalls }
{}

/// Of these kinds a new row alone lengthens the base, by its record.
pub fn base_grows_by_rows()
    ensures { BaseGrowsByRows }
{}

/// Where just the blocks go that nothing uses any more, each address that is held is again that of a block in use, or of a recording that is not done.
pub fn all_stay_in_use()
    ensures { AllStayInUse }
{}

//! Laws of a lane's first job, for the crates above. Each is the contract of a function, so that the check keeps it and a proof above may cite it.

ghost use Rattle.serving_laws.specs.Laws.{OthersLeaveTheFirstJob, OthersLeaveALaneAtRest, AWindowThatComesBack, AFeedThatBringsNothing, AJobThatIsOverLeavesALaneAtRest, AFeedIsToldWhole, WhatIsTakenInGoesOn, AWindowLiesInItsPassage};

/// Entries that do not feed a lane leave its first job as far as it was heard, with the window that is out.
pub fn others_leave_the_first_job()
    ensures { OthersLeaveTheFirstJob }
{}

/// Entries that do not feed a lane leave it at rest.
pub fn others_leave_a_lane_at_rest()
    ensures { OthersLeaveALaneAtRest }
{}

/// A feed that brings back a window goes on with the job from where the window was heard to.
pub fn a_window_that_comes_back()
    ensures { AWindowThatComesBack }
{}

/// A feed that brings nothing back goes on with the first job from where it was heard to.
pub fn a_feed_that_brings_nothing()
    ensures { AFeedThatBringsNothing }
{}

/// A feed that tells that a job is over leaves its lane at rest.
pub fn a_job_that_is_over_leaves_a_lane_at_rest()
    ensures { AJobThatIsOverLeavesALaneAtRest }
{}

/// A feed's answer holds on disks of either honesty.
pub fn a_feed_is_told_whole()
    ensures { AFeedIsToldWhole }
{}

/// What is taken in of a window goes on from where it begins.
pub fn what_is_taken_in_goes_on()
    ensures { WhatIsTakenInGoesOn }
{}

/// A window that is out lies in its job's passage.
pub fn a_window_lies_in_its_passage()
    ensures { AWindowLiesInItsPassage }
{}

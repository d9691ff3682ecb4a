//! Laws of what is counted. Each is the contract of a function with an empty body.
ghost use Rattle.ckrt_look_profile.specs.CountLaws.{EachStepCountsOnce};

/// Each step counts once, on its stack and for its thread.
pub fn each_step_counts_once()
    ensures { EachStepCountsOnce }
{}

//! Laws of a profile. Each is the contract of a function with an empty body.
ghost use Rattle.ckrt_look_profile.specs.Laws.{FunctionsHaveAllSteps, SumsAreTheSteps};

/// By stack and by thread the sums of what is counted are just the steps that the machine answers.
pub fn sums_are_the_steps()
    ensures { SumsAreTheSteps }
{}

/// So are those of the functions that the table tells, with the steps on stacks without a row.
pub fn functions_have_all_steps()
    ensures { FunctionsHaveAllSteps }
{}

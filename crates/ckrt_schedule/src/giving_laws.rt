//! Laws of what is given. Each is the contract of a function with an empty body.
ghost use Rattle.ckrt_schedule.specs.Next.{EndsBehindAll, GivesBeginning, GoesOnGiven, HangsOnNext, IsAlwaysTaken};

/// Where each Input and each end of input of a list was next at its turn, the Inputs, joined, are a beginning of the file, and the
/// end comes only after all of it. So it is of a list that goes on after another, from the offset on that this left.
pub fn given_input_is_the_file()
    ensures beginning { GivesBeginning }
    ensures end { EndsBehindAll }
    ensures goes_on { GoesOnGiven }
{}

/// What is next is refused for no reason that lies in the machine, and it depends on the next 64 bytes of the file alone.
pub fn given_input_is_taken()
    ensures taken { IsAlwaysTaken }
    ensures next { HangsOnNext }
{}

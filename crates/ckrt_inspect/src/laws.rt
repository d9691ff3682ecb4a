//! Worked listings, lines and instructions. Each is the contract of a function with an empty body.
ghost use Rattle.ckrt_inspect.specs.Worked.{WorkedInstructions, WorkedLines, WorkedListings};

/// Two listings: a guest that waits for input, and one that joins a thread.
pub fn worked_listings()
    ensures { WorkedListings }
{}

/// A line of every kind.
pub fn worked_lines()
    ensures { WorkedLines }
{}

/// Lines of instructions, of a word that is no instruction, and of an address outside the memory.
pub fn worked_instructions()
    ensures { WorkedInstructions }
{}

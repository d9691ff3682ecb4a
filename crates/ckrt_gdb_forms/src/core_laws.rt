//! Worked parts of a core. They are the contract of a function with an empty body.
ghost use Rattle.ckrt_gdb_forms.specs.Worked.{WorkedCores};

/// Headers, the places of a note, and the order of threads, by hand from the standards.
pub fn worked_cores()
    ensures { WorkedCores }
{}

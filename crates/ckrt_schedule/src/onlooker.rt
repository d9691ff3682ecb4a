//! Who looks on while a schedule is run.

/// No onlooker at all.
#[derive(Clone, Copy, Debug, PartialEq, Eq)]
pub struct Nobody;

//! The law of refused calls: the contract of a function with an empty body.
ghost use Rattle.ckrt_calls.specs.Refused.{RefusedChangesNothing};

/// A call that is refused changes nothing: where it answers an error number the tables are as they were. `ETIMEDOUT` is one
/// of a timed lock alone, since a wait at a condition has given up its mutex by then.
pub fn refused_changes_nothing()
    ensures { RefusedChangesNothing }
{}

//! Kinds of outcomes.
ghost use Rattle.std.specs.Prelude.{◌≡◌};
ghost use Rattle.ckrt_hunt_schedules.specs.Kinds.{kind_of};

use crate::outcome::Outcome;

/// What an outcome is, by and large. Those that harm come first.
#[derive(Clone, Copy)]
pub enum Kind {
    /// A thread crashed.
    Fault,
    /// No thread can go on.
    Deadlock,
    /// The program exited with a status other than 0.
    OtherStatus,
    /// The program didn't end.
    NoEnd,
    /// No thread can go on, and one waits for input.
    WaitsForInput,
    /// The program exited with status 0.
    ExitZero,
}

/// The kind of an outcome.
pub fn kind_of(outcome: &Outcome) -> Kind
    ensures { result ≡ kind_of outcome.now }
{
    match outcome {
        Outcome::Faulted(_, _, _) => Kind::Fault,
        Outcome::Deadlock(_) => Kind::Deadlock,
        Outcome::Exited(status) => {
            if *status == 0 {
                Kind::ExitZero
            } else {
                Kind::OtherStatus
            }
        }
        Outcome::NoEnd(_) => Kind::NoEnd,
        Outcome::WaitsForInput => Kind::WaitsForInput,
    }
}

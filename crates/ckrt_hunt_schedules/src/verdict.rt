//! What the outcomes of all runs come to.
ghost use Rattle.std.specs.Prelude.{◌≡◌};
ghost use Rattle.ckrt_hunt_schedules.specs.Kinds.{verdict_by};

use crate::kind::Kind;

/// What the outcomes of all runs come to.
#[derive(Clone, Copy, Debug, PartialEq, Eq)]
pub enum Verdict {
    /// Each run ended by `exit 0`, with the same output.
    Good,
    /// There are several outcomes, or a run had a race that was looked for.
    Several,
    /// All runs had one outcome, which isn't `exit 0`.
    Bad,
}

/// The verdict on runs whose one outcome is of this kind.
pub fn verdict_by(kind: Kind) -> Verdict
    ensures { result ≡ verdict_by kind }
{
    match kind {
        Kind::ExitZero => Verdict::Good,
        Kind::Fault | Kind::Deadlock | Kind::OtherStatus | Kind::NoEnd | Kind::WaitsForInput =>
            Verdict::Bad,
    }
}

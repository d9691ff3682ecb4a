//! The second look at what was found.
ghost use Rattle.std.specs.Prelude.{◌≡◌, ◌⊎◌, IfErr, OnOk};
ghost use Rattle.std.specs.Io.KnownBytes.{Appends};
ghost use Rattle.ckrt_inspect.specs.declared.fault.InspectFault.TheVariants.{OutOfMemory, Write as Writing};
ghost use Rattle.ckrt_look_calls.specs.Moments.{made_text};
ghost use Rattle.ckrt_look_calls.specs.Replays.{IsBehind, IsSound, replay_of};

use crate::callers::write_callers;
use crate::moment::Moment;
use crate::replay::{Cursor, Source};
use ckrt_inspect::InspectFault;
use std::alloc::Global;
use std::io::Write;

/// Writes the callers of who did something at a moment of a recording. The cursor goes there, and begins again where it is beyond it.
///
/// # Errors
///
/// `OutOfMemory` where a growth was refused, `Write` where the writer failed.
pub fn write_made<W: Write>(
    alloc: Global,
    source: &Source<'_>,
    cursor: &mut Cursor,
    moment: &Moment,
    out: &mut W,
) -> Result<(), InspectFault>
    requires sound { IsSound (replay_of source.now) }
    requires behind { IsBehind (replay_of source.now) cursor.old }
    ensures written { OnOk result (Appends (W.contents out.old) (W.contents out.new)
        (made_text moment.now (replay_of source.now))) }
    ensures behind { OnOk result (IsBehind (replay_of source.now) cursor.new) }
    ensures fault { IfErr result (λ e. (e ≡ OutOfMemory) ⊎ (e ≡ Writing)) }
{
    let Ok(machine) = cursor.machine_at(alloc, source, moment.place) else {
        return Err(InspectFault::OutOfMemory);
    };
    match write_callers(out, moment, source.rules, &machine) {
        Ok(()) => Ok(()),
        Err(_) => Err(InspectFault::Write),
    }
}

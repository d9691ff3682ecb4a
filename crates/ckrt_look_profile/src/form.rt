//! The forms of a profile.
ghost use Rattle.std.specs.Prelude.{◌≡◌, ◌⊎◌, IfErr, OnOk};
ghost use Rattle.std.specs.Io.KnownBytes.{Appends};
ghost use Rattle.ckrt_look_profile.specs.Callgrind.{callgrind_text};
ghost use Rattle.ckrt_look_profile.specs.Texts.{folded_text, profile_text};

use crate::callgrind::write_callgrind;
use crate::counts::Counts;
use crate::folded::write_folded;
use crate::table::write_table;
use ckrt_inspect::InspectFault;
use std::alloc::Global;
use std::io::Write;

/// In which form a profile is told.
#[derive(Clone, Copy, Debug, Drop, PartialEq, Eq)]
pub enum Form {
    /// A table of the functions, threads and waits with the most steps.
    Table,
    /// A line for each stack of calls.
    Folded,
    /// As callgrind writes it.
    Callgrind,
}

/// Folded stacks, and what a fault of the writer is.
fn write_stacks<W: Write>(counts: &Counts, out: &mut W) -> Result<(), InspectFault>
    ensures folded { OnOk result
        (Appends (W.contents out.old) (W.contents out.new) (folded_text counts.now)) }
    ensures fault { IfErr result (λ e. e ≡ InspectFault.Write) }
{
    match write_folded(out, counts) {
        Ok(()) => Ok(()),
        Err(_) => Err(InspectFault::Write),
    }
}

/// Callgrind's format, and what a fault of the writer is.
fn write_calls<W: Write>(counts: &Counts, out: &mut W) -> Result<(), InspectFault>
    ensures callgrind { OnOk result
        (Appends (W.contents out.old) (W.contents out.new) (callgrind_text counts.now)) }
    ensures fault { IfErr result (λ e. e ≡ InspectFault.Write) }
{
    match write_callgrind(out, counts) {
        Ok(()) => Ok(()),
        Err(_) => Err(InspectFault::Write),
    }
}

/// What was counted, in this form.
pub(crate) fn write_form<W: Write>(
    alloc: Global,
    form: Form,
    counts: &Counts,
    out: &mut W,
) -> Result<(), InspectFault>
    ensures profile { OnOk result
        (Appends (W.contents out.old) (W.contents out.new) (profile_text form counts.now)) }
    ensures fault { IfErr result
        (λ e. (e ≡ InspectFault.Write) ⊎ (e ≡ InspectFault.OutOfMemory)) }
{
    match form {
        Form::Table => write_table(alloc, counts, out),
        Form::Folded => write_stacks(counts, out),
        Form::Callgrind => write_calls(counts, out),
    }
}

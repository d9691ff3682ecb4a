//! Why an event isn't made, as gdb's user is told it.
ghost use Rattle.std.specs.Prelude.{◌≡◌, ◌++◌, OnOk};
ghost use Rattle.ckrt_events.specs.Refusals.{line_fault_text, no_line};
ghost use Rattle.ckrt_gdb_stub.specs.Monitor.{append_fault_text};

use ckrt_events::LineFault;
use ckrt_gdb_history::AppendFault;
use std::alloc::AllocError;

/// The reply of a session that refuses something.
fn push_no(out: &mut Vec<u8>, text: &[u8]) -> Result<(), AllocError>
    ensures { OnOk result (out.new.items ≡ out.old.items ++ no_line text.now) }
{
    out.extend_from_slice(b"no ")?;
    out.extend_from_slice(text)?;
    out.extend_from_slice(b"\n")
}

/// Why a line has no event.
pub fn push_line_fault(out: &mut Vec<u8>, fault: LineFault) -> Result<(), AllocError>
    ensures { OnOk result (out.new.items ≡ out.old.items ++ no_line (line_fault_text fault)) }
{
    push_no(out, fault.text())
}

/// Why an event isn't made.
pub fn push_append_fault(out: &mut Vec<u8>, fault: AppendFault) -> Result<(), AllocError>
    ensures { OnOk result (out.new.items ≡ out.old.items ++ append_fault_text fault) }
{
    match fault {
        AppendFault::NotAtEnd => {
            out.extend_from_slice(b"not at the end of the history: monitor fork ends it here\n")
        }
        AppendFault::NoRoom => out.extend_from_slice(b"no room for another event\n"),
        AppendFault::Refused(refusal) => push_no(out, refusal.text()),
    }
}

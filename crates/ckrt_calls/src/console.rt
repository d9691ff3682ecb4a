//! Reading the console's input.
ghost use Rattle.std.specs.Prelude.{◌≡◌, true, false};
ghost use Rattle.ckrt_thread.specs.State.{is_live, is_waiting};
ghost use Rattle.ckrt_calls.specs.Table.{getc_of, END_OF_INPUT};

use crate::table::Tables;
use ckrt_thread::{CallResult, Reason, ThreadId};

/// What a thread reads where the input has ended.
pub const END_OF_INPUT: u32 = 0xFFFF_FFFF;

/// The first byte of the input, [`END_OF_INPUT`] where it has ended, else the thread waits for a byte.
pub fn getc(tables: &mut Tables, thread: ThreadId) -> CallResult
    requires live { is_live tables.old.threads thread ≡ true }
    requires free { is_waiting tables.old.threads thread ≡ false }
    ensures result { result ≡ (getc_of tables.old.input thread tables.old).result }
    ensures tables { tables.new ≡ (getc_of tables.old.input thread tables.old).tables }
{
    if let Some(byte) = tables.input.pop_first() {
        return CallResult::Done(u32::from(byte));
    }
    if tables.closed {
        return CallResult::Done(END_OF_INPUT);
    }
    tables.threads.block(thread, Reason::Input, None);
    CallResult::Blocked
}

//! The clock, and sleeps.
ghost use Rattle.std.specs.Prelude.{◌≡◌, ◌<◌, true, false};
ghost use Rattle.ckrt_thread.specs.State.{is_live, is_waiting};
ghost use Rattle.ckrt_thread.specs.Waits.{MOMENT_END};
ghost use Rattle.ckrt_calls.specs.Table.{clock_row, moment_of, sleep_row};

use crate::table::Tables;
use ckrt_thread::{CallResult, EINVAL, MOMENT_END, Reason, ThreadId};

/// The moment in ticks that two words give.
pub fn moment_of(low: u32, high: u32) -> u64
    ensures { result ≡ moment_of low high }
{
    u64::from(low) + 0x1_0000_0000 * u64::from(high)
}

/// The clock's low word is the result, and its high word goes to x11.
pub fn clock(tables: &mut Tables, thread: ThreadId) -> CallResult
    requires live { is_live tables.old.threads thread ≡ true }
    requires clock { tables.old.clock < MOMENT_END }
    ensures result { result ≡ (clock_row thread tables.old).result }
    ensures tables { tables.new ≡ (clock_row thread tables.old).tables }
{
    let low = tables.clock % 0x1_0000_0000;
    let high = tables.clock / 0x1_0000_0000;
    tables.threads.known_live(thread);
    tables.threads.set_second_result(thread, high as u32);
    CallResult::Done(low as u32)
}

/// The thread waits for a moment in ticks, which must be below 2^63: else EINVAL. 0 at once where the clock has reached
/// it.
pub fn sleep_until(tables: &mut Tables, thread: ThreadId, moment: u64) -> CallResult
    requires live { is_live tables.old.threads thread ≡ true }
    requires free { is_waiting tables.old.threads thread ≡ false }
    ensures result { result ≡ (sleep_row thread moment tables.old).result }
    ensures tables { tables.new ≡ (sleep_row thread moment tables.old).tables }
{
    if moment >= MOMENT_END {
        return CallResult::Done(EINVAL);
    }
    if moment <= tables.clock {
        return CallResult::Done(0);
    }
    tables.threads.block(thread, Reason::Sleep, Some(moment));
    CallResult::Blocked
}

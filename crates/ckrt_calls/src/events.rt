//! What comes from outside: input, its end, and time.
ghost use Rattle.std.specs.Prelude.{◌≡◌, ◌≤◌, ◌<◌, ◌+◌, length};
ghost use Rattle.ckrt_thread.specs.Waits.{MOMENT_END};
ghost use Rattle.ckrt_calls.specs.WellFormed.{IsWellFormed};
ghost use Rattle.ckrt_calls.specs.Table.{END_OF_INPUT, input_taken, input_closed, ticked, feed};

use crate::console::END_OF_INPUT;
use crate::due::end_due_waits;
use crate::input::{INPUT_LIMIT, InputQueue};
use crate::table::Tables;
use ckrt_thread::{Object, Threads};

/// Bytes of input come. There must be room for them: at most [`INPUT_LIMIT`] may be left unread. While a byte is left
/// and a thread waits for one, who waits longest gets the first.
pub fn take_input(tables: &mut Tables, bytes: &[u8])
    requires room { length tables.old.input + length bytes.now ≤ INPUT_LIMIT }
    requires well_formed { IsWellFormed tables.old }
    ensures well_formed { IsWellFormed tables.new }
    ensures tables { tables.new ≡ input_taken bytes.now tables.old }
{
    tables.input.append(bytes);
    feed_readers(&mut tables.threads, &mut tables.input);
}

/// While a byte is left and a thread waits for one, who waits longest gets the first.
fn feed_readers(threads: &mut Threads, input: &mut InputQueue)
    ensures threads { threads.new ≡ (feed input.old threads.old).threads }
    ensures input { input.new ≡ (feed input.old threads.old).input }
{
    while input.len() > 0 {
        let Some(reader) = threads.wake_first(Object::Input) else {
            return;
        };
        if let Some(byte) = input.pop_first() {
            threads.set_result(reader.thread, u32::from(byte));
        }
    }
}

/// No more input comes: each thread that waits for it reads [`END_OF_INPUT`].
pub fn close_input(tables: &mut Tables)
    requires well_formed { IsWellFormed tables.old }
    ensures well_formed { IsWellFormed tables.new }
    ensures tables { tables.new ≡ input_closed tables.old }
{
    tables.closed = true;
    tables.threads.wake_all(Object::Input, END_OF_INPUT);
}

/// Some ticks pass, up to a moment below 2^63. Each wait whose deadline comes ends, in order of deadline and then of
/// thread; answers how many.
pub fn tick(tables: &mut Tables, ticks: u32) -> u32
    requires clock { tables.old.clock + ticks < MOMENT_END }
    requires well_formed { IsWellFormed tables.old }
    ensures well_formed { IsWellFormed tables.new }
    ensures tables { tables.new ≡ (ticked ticks tables.old).tables }
    ensures ended { result ≡ (ticked ticks tables.old).ended }
{
    let now = tables.clock + ticks as u64;
    let ended = end_due_waits(tables, now);
    tables.clock = now;
    ended
}

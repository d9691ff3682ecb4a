//! Reading the input that no thread has read, and the held output.
ghost use Rattle.std.specs.Prelude.{◌≡◌, ◌≤◌, [], length};
ghost use Rattle.ckrt_calls.specs.declared.input.TheConstants.{INPUT_LIMIT};
ghost use Rattle.ckrt_calls.specs.Output.{HELD_LIMIT};
ghost use Rattle.ckrt_tables.specs.Encoding.{queue_bytes};
ghost use Rattle.ckrt_tables.specs.Objects.{FindsAll, AreUpTo};

use crate::cursor::Cursor;
use crate::encoding::Held;
use ckrt_calls::{HELD_LIMIT, INPUT_LIMIT, InputQueue};

/// How many bytes there are, and the bytes; none where there are more than that many, or fewer are left.
fn read_queue<'a>(cursor: &mut Cursor<'a>, limit: usize) -> &'a [u8]
    requires { limit ≤ HELD_LIMIT }
    ensures found { FindsAll (AreUpTo limit) queue_bytes cursor.old result.now cursor.new }
    ensures most { length result.now ≤ limit }
{
    let count = usize::from(cursor.half());
    if count > limit {
        return &[];
    }
    cursor.bytes(count)
}

/// The input, into a queue that is empty.
pub fn read_input(cursor: &mut Cursor<'_>, input: &mut InputQueue)
    requires { input.old ≡ [] }
    ensures { FindsAll (AreUpTo INPUT_LIMIT) queue_bytes cursor.old input.new cursor.new }
{
    input.append(read_queue(cursor, INPUT_LIMIT));
}

/// The held output, into a ring that is empty.
pub fn read_held(cursor: &mut Cursor<'_>, held: &mut Held)
    requires empty { held.old.items ≡ [] }
    requires capacity { held.old.capacity ≡ HELD_LIMIT }
    ensures found { FindsAll (AreUpTo HELD_LIMIT) queue_bytes cursor.old held.new.items cursor.new }
    ensures capacity { held.new.capacity ≡ HELD_LIMIT }
    ensures most { length held.new.items ≤ HELD_LIMIT }
{
    held.fill_from_slice(read_queue(cursor, HELD_LIMIT));
}

//! What is given next.
ghost use Rattle.std.specs.Prelude.{◌≡◌, ◌≤◌, length};
ghost use Rattle.ckrt_schedule.specs.Next.{given_by, has_room, next_input};

use arrayvec::ArrayVec;
use ckrt_calls::{INPUT_LIMIT, Status, Tables};
use ckrt_events::Event;

/// How many bytes are given at once, at most.
pub const PIECE: usize = 64;

/// Whether the program runs, its input hasn't ended, and its queue has room for that many bytes.
fn has_room(tables: &Tables, count: usize) -> bool
    requires { count ≤ 64 }
    ensures { result ≡ has_room tables.now count }
{
    matches!(tables.status, Status::Running)
        && !tables.closed
        && tables.input.len() + count <= INPUT_LIMIT
}

/// An Input of these bytes, or the end where there are none.
fn given_by(bytes: &[u8]) -> Event
    requires { length bytes.now ≤ 64 }
    ensures { result ≡ given_by bytes.now }
{
    if bytes.is_empty() {
        return Event::Eof;
    }
    let mut input = ArrayVec::new();
    input.try_extend_from_slice(bytes).unwrap();
    Event::Input(input)
}

/// What a program is given next of its input, of which these bytes are left; of more than [`PIECE`] bytes only the first ones
/// are looked at. An Input of the next [`PIECE`] bytes, or of all that are left, where the queue has room for them; the end of
/// input where none is left; nothing where there is no room, after the end, or once the program has ended.
pub fn next_input(tables: &Tables, rest: &[u8]) -> Option<Event>
    ensures { result ≡ next_input tables.now rest.now }
{
    let bytes = &rest[..rest.len().min(PIECE)];
    if !has_room(tables, bytes.len()) {
        return None;
    }
    Some(given_by(bytes))
}

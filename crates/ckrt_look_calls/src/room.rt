//! The room of a shadow of a guest's memory.
ghost use Rattle.std.specs.Prelude.{◌≡◌, ◌<◌};
ghost use Rattle.ckrt_look_calls.specs.Rooms.{slots_in, words_of};

use ckrt_machine::Machine;

/// How many words of memory there are, from address 0 on.
pub fn words_of(machine: &Machine) -> usize
    ensures { result ≡ words_of machine.now.state }
{
    1024 * machine.memory().pages() as usize
}

/// How many slots a room of so many bytes has, where each takes `part` bytes: no more than a memory of so many words has parts, of
/// 1,024 words each.
pub fn slots_in(room: u64, part: u64, words: usize) -> usize
    requires { 0 < part }
    ensures { result ≡ slots_in room part words }
{
    let parts = words / 1024 + 1;
    let slots = room / part;
    if slots < parts as u64 {
        slots as usize
    } else {
        parts
    }
}

//! Steps in a row of a thread, from none of which it leaves its function.
ghost use Rattle.std.specs.Prelude.{◌≡◌, ◌≤◌, ◌+◌, length};
ghost use Rattle.ckrt_rv32i.specs.Memory.{loaded};
ghost use Rattle.ckrt_rv32i.specs.declared.memory_bus.Size.TheVariants as size;
ghost use Rattle.ckrt_look_profile.specs.Leaving.{is_onward, leaves, leaves_at};

use crate::turn::{Turn, turn_of};
use ckrt_memory::StopReason;
use ckrt_thread::{RETURN_GATE, UNWIND_GATE};

/// The word of ECALL.
const ECALL: u32 = 0x73;

/// The least opcode of a JAL, a JALR or an ECALL; no other of RV32I but EBREAK is above it.
const JUMPS: u8 = 0x64;

/// Whether a thread stays in its function.
fn is_onward(turn: Turn) -> bool
    ensures { result ≡ is_onward turn }
{
    matches!(turn, Turn::Onward)
}

/// Whether a thread leaves its function by a word.
fn leaves(word: u32) -> bool
    ensures { result ≡ leaves word }
{
    word == ECALL || !is_onward(turn_of(word))
}

/// The word at an index of bytes.
#[inline(always)]
fn word_in(bytes: &[u8], at: usize) -> u32
    requires { at + 4 ≤ length bytes.now }
    ensures { result ≡ loaded bytes.now (4096 + at) size.Word }
{
    bytes[at] as u32
        + 256 * bytes[at + 1] as u32
        + 65536 * bytes[at + 2] as u32
        + 16777216 * bytes[at + 3] as u32
}

/// Whether a thread leaves its function by the word at an address, if there is one, of these bytes from address 4,096 on.
#[inline(always)]
fn leaves_at(bytes: &[u8], pc: u32) -> bool
    ensures { result ≡ leaves_at bytes.now pc }
{
    let at = pc.wrapping_sub(4096) as usize;
    if pc < 4096 || bytes.len() < at + 4 {
        return false;
    }
    if bytes[at] % 128 < JUMPS {
        return false;
    }
    let word = word_in(bytes, at);
    leaves(word)
}

/// A reason to stop before each step from which a thread may go on in another function: a call, a return, a call of the runtime, and
/// what it does at a gate.
#[derive(Clone, Copy, Debug)]
pub(crate) struct AtLeaving;

impl StopReason for AtLeaving {
    ghost use Rattle.ckrt_look_profile.specs.Leaving.{leaves_next};

    ghost meets = { λ at. leaves_next };

    #[inline(always)]
    fn is_met(&self, pc: u32, _file: &[u32; 33], bytes: &[u8]) -> bool {
        pc == RETURN_GATE || pc == UNWIND_GATE || leaves_at(bytes, pc)
    }

    #[inline(always)]
    fn is_only_at_jumps(&self) -> bool {
        true
    }
}

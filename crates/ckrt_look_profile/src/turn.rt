//! How a thread goes on from an instruction.
ghost use Rattle.std.specs.Prelude.{◌≡◌};
ghost use Rattle.ckrt_look_profile.specs.Turns.{is_link, jump_turn, rd_of, register_turn, rs1_of, turn_of};

/// How a thread goes on from a step.
#[derive(Clone, Copy, Debug, Drop)]
pub enum Turn {
    /// In the same function.
    Onward,
    /// In a function that it calls.
    Call,
    /// In the function that called this one.
    Return,
    /// In another function that the caller of this one is to call.
    Swap,
    /// Where the runtime lets it: at this address, behind its call, or in a routine of its own.
    Runtime(u32),
}

/// The opcode of JAL.
const JAL: u32 = 0x6F;

/// The opcode of JALR.
const JALR: u32 = 0x67;

/// Whether a register has return addresses.
fn is_link(register: u32) -> bool
    ensures { result ≡ is_link register }
{
    register == 1 || register == 5
}

/// The register that an instruction writes.
fn rd_of(word: u32) -> u32
    ensures { result ≡ rd_of word }
{
    word / 128 % 32
}

/// The first register that it reads.
fn rs1_of(word: u32) -> u32
    ensures { result ≡ rs1_of word }
{
    word / 32768 % 32
}

/// From a JAL.
fn jump_turn(word: u32) -> Turn
    ensures { result ≡ jump_turn word }
{
    if is_link(rd_of(word)) {
        Turn::Call
    } else {
        Turn::Onward
    }
}

/// From a JALR.
fn register_turn(word: u32) -> Turn
    ensures { result ≡ register_turn word }
{
    let from = rs1_of(word);
    let to = rd_of(word);
    match (is_link(to), is_link(from)) {
        (true, true) if to != from => Turn::Swap,
        (true, _) => Turn::Call,
        (false, true) => Turn::Return,
        (false, false) => Turn::Onward,
    }
}

/// How a thread goes on from an instruction that is no call of the runtime, by its word.
pub fn turn_of(word: u32) -> Turn
    ensures { result ≡ turn_of word }
{
    match word % 128 {
        JAL => jump_turn(word),
        JALR => register_turn(word),
        _ => Turn::Onward,
    }
}

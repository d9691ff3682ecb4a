//! The RV32I processor of a guest: the words of its instructions, and what each does to the registers and the memory.
//!
//! The source is the RISC-V unprivileged manual, RV32I 2.1. `decode` and `encode` go between words and instructions,
//! `instr_text` and `parse_instr` between instructions and texts, and `execute` makes one step of a hart over any
//! memory that implements `Bus`.
#![tactic(auto)]

mod decoding;
mod encoding;
mod execution;
mod instruction;
mod laws;
mod memory_bus;
mod operations;
mod parsing;
mod text;

pub use ckrt_registers::Regs;
pub use decoding::decode;
pub use encoding::encode;
pub use execution::{Cause, Outcome, execute};
pub use instruction::{AluOp, Condition, ImmOp, Instr, LoadKind, ShiftOp};
pub use laws::{
    fault_changes_nothing, memory_keeps_its_size, one_instruction_a_text, one_instruction_a_word,
    one_word_an_instruction,
};
pub use memory_bus::{Bus, Size};
pub use parsing::parse_instr;
pub use text::instr_text;

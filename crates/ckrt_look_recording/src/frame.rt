//! Frames: where a thread stands in a function.
ghost use Rattle.std.specs.Prelude.{◌≡◌};
ghost use Rattle.ckrt_look_recording.specs.Frames.{caller_of, frame_of};

use crate::rule::Rule;
use crate::word::word_at;
use ckrt_memory::Memory;
use ckrt_registers::Regs;

/// Where a thread stands in a function, with the registers that lead to the caller.
#[derive(Clone, Copy, Debug, PartialEq, Eq)]
pub struct Frame {
    /// The address of the instruction: of its call, where the function has called another.
    pub place: u32,
    /// x1.
    pub return_address: u32,
    /// x2.
    pub stack_pointer: u32,
    /// x8.
    pub frame_pointer: u32,
}

impl Frame {
    /// The frame of a thread with these registers. One that waits is after its call, which stands four bytes lower.
    pub fn of(regs: &Regs, waits: bool) -> Frame
        ensures { result ≡ frame_of regs.now waits }
    {
        Frame {
            place: if waits {
                regs.pc().saturating_sub(4)
            } else {
                regs.pc()
            },
            return_address: regs.get(1),
            stack_pointer: regs.get(2),
            frame_pointer: regs.get(8),
        }
    }

    /// The caller of a frame, by the rule of its place. It stands at its call: in the word before the return address.
    pub(crate) fn caller(&self, memory: &Memory, rule: &Rule) -> Option<Frame>
        ensures { result ≡ caller_of memory.now.bytes rule.now self.now }
    {
        let address = rule.frame_address(self);
        let return_address = rule
            .return_address
            .before_call(memory, address, self.return_address)?;
        let frame_pointer = rule
            .frame_pointer
            .before_call(memory, address, self.frame_pointer)?;
        let place = return_address.saturating_sub(4);
        word_at(memory, u64::from(place))?;
        Some(Frame {
            place,
            return_address,
            stack_pointer: address,
            frame_pointer,
        })
    }
}

//! How a function is left: rules of call frame information (DWARF 5, 6.4), each for a stretch of code.
ghost use Rattle.std.specs.Prelude.{◌≡◌};
ghost use Rattle.std.specs.List.{find};
ghost use Rattle.ckrt_look_recording.specs.Frames.{before_call, frame_address, has, is_kit, rule_at};

use crate::frame::Frame;
use crate::word::word_at;
use ckrt_memory::Memory;

/// A stretch of addresses.
#[derive(Clone, Copy, Debug, PartialEq, Eq)]
pub struct Stretch {
    /// The first one.
    pub begin: u32,
    /// The one after the last.
    pub end: u32,
}

/// The register that a canonical frame address is counted from.
#[derive(Clone, Copy, Debug, PartialEq, Eq)]
pub enum Base {
    /// x2.
    StackPointer,
    /// x8.
    FramePointer,
}

/// Where a register's value is that it had before a call.
#[derive(Clone, Copy, Debug, PartialEq, Eq)]
pub enum Saved {
    /// In the register still.
    Kept,
    /// In the word so many bytes below the canonical frame address.
    Below(u32),
}

/// How to go from an instruction of a stretch to the caller of its function.
#[derive(Clone, Copy, Debug, PartialEq, Eq)]
pub struct Rule {
    /// The code that it is of.
    pub stretch: Stretch,
    /// What the canonical frame address is counted from.
    pub base: Base,
    /// How many bytes higher it is.
    pub offset: u32,
    /// Where the return address is, which was in x1.
    pub return_address: Saved,
    /// Where the caller's frame pointer is, x8.
    pub frame_pointer: Saved,
}

impl Stretch {
    /// Whether an address lies in it.
    pub(crate) fn has(&self, address: u32) -> bool
        ensures { result ≡ has address self.now }
    {
        self.begin <= address && address < self.end
    }
}

/// Whether an address is one of the kit's.
pub(crate) fn is_kit(kit: &[Stretch], address: u32) -> bool
    ensures { result ≡ is_kit kit.now address }
{
    kit.iter().any(|stretch| stretch.has(address))
}

/// The first rule that is of an address.
pub(crate) fn rule_at(rules: &[Rule], address: u32) -> Option<Rule>
    ensures { result ≡ rule_at rules.now address }
{
    rules.iter().copied().find(|rule| rule.stretch.has(address))
}

impl Rule {
    /// The canonical frame address of a frame.
    pub(crate) fn frame_address(&self, frame: &Frame) -> u32
        ensures { result ≡ frame_address self.now frame.now }
    {
        let base = match self.base {
            Base::StackPointer => frame.stack_pointer,
            Base::FramePointer => frame.frame_pointer,
        };
        base.wrapping_add(self.offset)
    }
}

impl Saved {
    /// What a register was before the call, which is `now` at present.
    pub(crate) fn before_call(self, memory: &Memory, address: u32, now: u32) -> Option<u32>
        ensures { result ≡ before_call memory.now.bytes address now self }
    {
        match self {
            Saved::Kept => Some(now),
            Saved::Below(count) => word_at(memory, u64::from(address.saturating_sub(count))),
        }
    }
}

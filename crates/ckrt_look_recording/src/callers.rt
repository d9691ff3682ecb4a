//! Who called, whoever's code it is.
ghost use Rattle.std.specs.Prelude.{◌≡◌};
ghost use Rattle.ckrt_look_recording.specs.Frames.{next_frame};

use crate::frame::Frame;
use crate::rule::{Rule, rule_at};
use ckrt_memory::Memory;

/// The caller of a frame, by the first rule that is of its place. There is none where no rule is, or none of the caller's words is where
/// it has to be, as of a thread's first function.
pub fn caller_of(rules: &[Rule], memory: &Memory, frame: &Frame) -> Option<Frame>
    ensures { result ≡ next_frame rules.now memory.now.bytes frame.now }
{
    let rule = rule_at(rules, frame.place)?;
    frame.caller(memory, &rule)
}

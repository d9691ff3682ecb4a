//! The call by which a thread came into a kit.
ghost use Rattle.std.specs.Prelude.{◌≡◌};
ghost use Rattle.ckrt_look_recording.specs.Frames.{call_of, call_within};

use crate::frame::Frame;
use crate::rule::{Rule, Stretch, is_kit, rule_at};
use ckrt_memory::Memory;

/// How many callers are looked at, at most.
pub const MOST_FRAMES: u32 = 64;

/// A call of a kit by code that isn't the kit's.
#[derive(Clone, Copy, Debug, PartialEq, Eq)]
pub struct Call {
    /// Where the thread stands in the function that was called.
    pub within: u32,
    /// Where it was called.
    pub from: u32,
}

/// From a frame of the kit to its callers, so many at most, up to the first that isn't the kit's.
fn call_within(
    kit: &[Stretch],
    rules: &[Rule],
    memory: &Memory,
    frame: &Frame,
    most: u32,
) -> Option<Call>
    ensures { result ≡ call_within most kit.now rules.now memory.now.bytes frame.now }
{
    let mut inner = *frame;
    let mut left = most;
    while left > 0 {
        let rule = rule_at(rules, inner.place)?;
        let caller = inner.caller(memory, &rule)?;
        if !is_kit(kit, caller.place) {
            return Some(Call {
                within: inner.place,
                from: caller.place,
            });
        }
        inner = caller;
        left -= 1;
    }
    None
}

/// The call by which a thread came into the kit that it stands in, by the kit's code and the rules of that. There is none where it isn't
/// in the kit, where a frame of the kit has no rule, or none of its caller's words is where it has to be, or where 64 callers are all the
/// kit's.
pub fn call_of(kit: &[Stretch], rules: &[Rule], memory: &Memory, frame: &Frame) -> Option<Call>
    ensures { result ≡ call_of kit.now rules.now memory.now.bytes frame.now }
{
    if !is_kit(kit, frame.place) {
        return None;
    }
    call_within(kit, rules, memory, frame, MOST_FRAMES)
}

//! What is known of a word, and what is done with it.
ghost use Rattle.std.specs.Prelude.{◌≡◌};
ghost use Rattle.ckrt_look_values.specs.Values.{chosen, known, moment_of, number_of, with_unknown};

use ckrt_look_calls::{Moment, Place};

/// Which bits of a word or a register hang on memory that was given and never stored, and who was given that, where: a block of the heap, or
/// a frame of a stack.
#[derive(Clone, Copy, Debug, Drop)]
pub struct Value {
    pub unknown: u32,
    pub is_block: bool,
    pub thread: u8,
    pub place: Place,
}

/// What is done with a value.
#[derive(Clone, Copy, Debug, Drop)]
pub enum Deed {
    Branch,
    Load,
    Store,
    Jump,
    Call,
}

/// What a thread does with a value that hangs on what was never stored.
#[derive(Clone, Copy, Debug, Drop)]
pub struct Use {
    pub deed: Deed,
    /// The instruction's address.
    pub pc: u32,
    /// Where the function returns to that it is in.
    pub link: u32,
    pub moment: Moment,
    pub value: Value,
}

/// A value of which all is known.
pub(crate) fn known() -> Value
    ensures { result ≡ known }
{
    Value {
        unknown: 0,
        is_block: false,
        thread: 0,
        place: Place { event: 0, step: 0 },
    }
}

/// The same memory's, with these unknown bits.
pub(crate) fn with_unknown(value: Value, unknown: u32) -> Value
    ensures { result ≡ with_unknown value unknown }
{
    Value {
        unknown,
        is_block: value.is_block,
        thread: value.thread,
        place: value.place,
    }
}

/// The first of two values that has unknown bits.
pub(crate) fn chosen(a: Value, b: Value) -> Value
    ensures { result ≡ chosen a b }
{
    if a.unknown == 0 {
        return b;
    }
    a
}

/// Who was given the memory, and where.
pub(crate) fn moment_of(value: &Value) -> Moment
    ensures { result ≡ moment_of value.now }
{
    Moment {
        place: value.place,
        thread: value.thread,
    }
}

/// A number for each thing that is done.
pub(crate) fn number_of(deed: Deed) -> u8
    ensures { result ≡ number_of deed }
{
    match deed {
        Deed::Branch => 0,
        Deed::Load => 1,
        Deed::Store => 2,
        Deed::Jump => 3,
        Deed::Call => 4,
    }
}

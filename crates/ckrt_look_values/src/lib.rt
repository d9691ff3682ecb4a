//! Values that were never stored: where a branch, an address or a call hangs on memory that was given, and that nothing has stored to since.
//!
//! A [`Values`] has for each word of memory and for each register of each thread which bits hang on such memory, and where that was given: a
//! block of the heap, or a frame of a stack. [`write_checks`] goes over recorded events, and tells the errors of memory of [`ckrt_look_heap`], and
//! after these each place where what is done hangs on such bits, with the first one there and how often.
#![tactic(auto)]

mod again;
mod bits;
mod calls;
mod checking;
mod finding;
mod found;
mod instruction;
mod recorded;
mod texts;
mod value;
mod values;
mod walk;
mod words;

pub use bits::Operand;
pub use finding::{FINDINGS, Finding};
pub use recorded::write_checks;
pub use value::{Deed, Use, Value};
pub use values::Values;

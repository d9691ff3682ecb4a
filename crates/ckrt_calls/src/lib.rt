//! The tables of a program, and which of them a program may have; the calls of a guest in one table, and what they, input and
//! time do to those tables.
#![tactic(auto)]

mod calls;
mod console;
mod due;
mod events;
mod input;
mod laws;
mod number;
mod output;
mod table;
mod time;
mod unwinding;
mod well_formed;

pub use calls::call;
pub use console::END_OF_INPUT;
pub use events::{close_input, take_input, tick};
pub use input::{INPUT_LIMIT, InputQueue};
pub use laws::refused_changes_nothing;
pub use number::{
    BarrierCall, Call, CancellationCall, ConditionCall, KeyCall, MutexCall, ProcessCall,
    RwLockCall, ThreadCall,
};
pub use output::HELD_LIMIT;
pub use table::{Status, Tables};
pub use unwinding::{act_on_request, begin_unwind, next_handler};

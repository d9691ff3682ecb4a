//! A stub of gdb's remote protocol over a recorded run: its line, what gdb's user commands, and a whole session.
//!
//! [`Stub::serve`] answers what a reader gives, byte by byte, over a writer.
#![tactic(auto)]

mod command;
mod fault;
mod line;
mod monitor;
mod refusals;
mod serve;
mod stub;

pub use fault::DebugFault;
pub use stub::Stub;

//! What gdb reads: the packets of its remote protocol, as a stub speaks it, and ELF cores. No call takes memory.
//!
//! Of the protocol: frames on the line, what gdb asks, and what it is answered.
//!
//! A core is that of a machine's state, for any debugger: the threads that haven't ended, with their registers, and the memory.
//!
//! [`write_core`] writes it, a few bytes at a time, and takes no memory. Its contract names the bytes. [`core_size`] says how many.
#![tactic(auto)]

mod arguments;
mod core_laws;
mod elf;
mod frame;
mod laws;
mod notes;
mod numbers;
mod parts;
mod payload;
mod reply;
mod request;
mod writing;

pub use core_laws::worked_cores;
pub use frame::{Arrival, FRAME_LIMIT, PAYLOAD_LIMIT, Receiver, Stage, write_frame};
pub use laws::{frames_read_back, parts_read_back};
pub use payload::{Full, Payload};
pub use reply::{Cause, Reply, write_reply};
pub use request::{Choice, Mark, Motion, Request, TEXT_LIMIT, Text, parse_request};
pub use writing::{core_size, write_core};

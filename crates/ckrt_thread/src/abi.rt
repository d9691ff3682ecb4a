//! How a guest uses its registers, and where it begins and ends.

/// The register that holds the return address (RISC-V calling convention).
pub const RA: u8 = 1;

/// The register that holds the stack pointer (RISC-V calling convention).
pub const SP: u8 = 2;

/// The register of the first argument and of the result (RISC-V calling convention).
pub const A0: u8 = 10;

/// The register of the second value of a call (RISC-V calling convention).
pub const A1: u8 = 11;

/// The address at which a program begins (this project's choice).
pub const PROGRAM_START: u32 = 0x1000;

/// The address to which a thread returns when its first function is done (this project's choice).
pub const RETURN_GATE: u32 = 0xFFFF_FFF0;

/// The address to which a clean-up handler or a destructor returns (this project's choice).
pub const UNWIND_GATE: u32 = 0xFFFF_FFF4;

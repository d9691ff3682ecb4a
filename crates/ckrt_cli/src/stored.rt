//! The stored program: what is served where there are no words.
use ckrt_main::Config;

/// Prints the letter `A`, and exits with 0.
pub(crate) const IMAGE: [u8; 24] = [
    0x13, 0x05, 0x10, 0x04, // addi x10, x0, 65
    0x93, 0x08, 0x20, 0x00, // addi x17, x0, 2 (putc)
    0x73, 0x00, 0x00, 0x00, // ecall
    0x13, 0x05, 0x00, 0x00, // addi x10, x0, 0
    0x93, 0x08, 0x10, 0x00, // addi x17, x0, 1 (exit)
    0x73, 0x00, 0x00, 0x00, // ecall
];

/// The machine of the stored program.
pub(crate) const CONFIG: Config = Config {
    pages: 16,
    harts: 1,
    journal: 4_096,
};

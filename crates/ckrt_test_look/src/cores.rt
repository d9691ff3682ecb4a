//! Cores byte by byte. What is wanted was written down from the System V gABI, the RISC-V ELF psABI and Linux's
//! `struct elf_prstatus` of 32-bit RISC-V, and the registers from the guests' instructions.

use crate::expect::{expect_eq, machine_of};
use crate::notes::{Noted, core_of, expect_note, expect_part, expect_words, expect_zeros, run};
use ckrt_gdb_forms::write_core;
use std::io::{self, ErrorKind, Write};

/// Where the program headers begin.
const NOTES_HEADER: usize = 52;

const MEMORY_HEADER: usize = 84;

/// Where the notes begin, and what is behind one or two of them.
const NOTES: usize = 116;

const BEHIND_ONE: usize = 340;

const BEHIND_TWO: usize = 564;

/// How many bytes 15 pages have.
const MEMORY: usize = 61_440;

/// `ELF`, 32 bits, lowest byte first, version 1; a core of RISC-V, with two program headers of 32 bytes from 52 on.
const ELF_HEADER: [u8; 52] = [
    0x7f, 0x45, 0x4c, 0x46, 1, 1, 1, 0, 0, 0, 0, 0, 0, 0, 0, 0, // e_ident
    4, 0, 243, 0, // e_type, e_machine
    1, 0, 0, 0, // e_version
    0, 0, 0, 0, // e_entry
    52, 0, 0, 0, // e_phoff
    0, 0, 0, 0, // e_shoff
    0, 0, 0, 0, // e_flags
    52, 0, 32, 0, 2, 0, // e_ehsize, e_phentsize, e_phnum
    0, 0, 0, 0, 0, 0, // e_shentsize, e_shnum, e_shstrndx
];

/// Puts the low byte of x10, again and again.
const PUTS: [u32; 3] = [
    0x00200893, // addi x17, x0, 2
    0x00000073, // ecall
    0xff9ff06f, // jal x0, -8
];

/// Makes a thread, whose argument is 66, and joins it. The thread reads what isn't memory.
const FAULTS: [u32; 12] = [
    0x00001537, // lui x10, 1
    0x02850513, // addi x10, x10, 40
    0x04200593, // addi x11, x0, 66
    0x00a00893, // addi x17, x0, 10
    0x00000073, // ecall
    0x00058513, // addi x10, x11, 0
    0x00b00893, // addi x17, x0, 11
    0x00000073, // ecall
    0x00100893, // addi x17, x0, 1
    0x00000073, // ecall
    0x00700293, // addi x5, x0, 7
    0x00002303, // lw x6, 0(x0)
];

#[test]
fn core_of_a_program_that_begins(rt: HostRuntime) {
    let core = core_of(&rt, &machine_of(&rt, &PUTS));
    expect_eq(&rt, core.len(), BEHIND_ONE + MEMORY);
    expect_part(&rt, core.as_slice(), 0, &ELF_HEADER);
    expect_words(
        &rt,
        core.as_slice(),
        NOTES_HEADER,
        &[4, 116, 0, 0, 224, 0, 0, 4],
    );
    expect_words(
        &rt,
        core.as_slice(),
        MEMORY_HEADER,
        &[1, 340, 0x1000, 0, 61_440, 61_440, 7, 4],
    );
    let first = Noted {
        signal: 0,
        id: 1,
        pc: 0x1000,
        registers: &[(1, 0xffff_fff0), (2, 0x1_0000)],
    };
    expect_note(&rt, core.as_slice(), NOTES, &first);
    expect_words(&rt, core.as_slice(), BEHIND_ONE, &PUTS);
    expect_zeros(&rt, core.as_slice(), BEHIND_ONE + 12);
}

#[test]
fn who_faulted_comes_first(rt: HostRuntime) {
    let mut machine = machine_of(&rt, &FAULTS);
    run(&rt, &mut machine, 0, 1);
    run(&rt, &mut machine, 1, 2);
    let core = core_of(&rt, &machine);
    expect_eq(&rt, core.len(), BEHIND_TWO + MEMORY);
    expect_part(&rt, core.as_slice(), 0, &ELF_HEADER);
    expect_words(
        &rt,
        core.as_slice(),
        NOTES_HEADER,
        &[4, 116, 0, 0, 448, 0, 0, 4],
    );
    expect_words(
        &rt,
        core.as_slice(),
        MEMORY_HEADER,
        &[1, 564, 0x1000, 0, 61_440, 61_440, 7, 4],
    );
    let faulted = Noted {
        signal: 11,
        id: 2,
        pc: 0x102c,
        registers: &[(1, 0xffff_fff0), (5, 7), (10, 66)],
    };
    expect_note(&rt, core.as_slice(), NOTES, &faulted);
    let joining = Noted {
        signal: 11,
        id: 1,
        pc: 0x1020,
        registers: &[(1, 0xffff_fff0), (2, 0x1_0000), (10, 2), (11, 2), (17, 11)],
    };
    expect_note(&rt, core.as_slice(), BEHIND_ONE, &joining);
    expect_words(&rt, core.as_slice(), BEHIND_TWO, &FAULTS);
    expect_zeros(&rt, core.as_slice(), BEHIND_TWO + 48);
}

/// Takes so many bytes more, and then fails.
#[derive(Drop)]
struct Narrow {
    room: usize,
}

impl Write for Narrow {
    fn write(&mut self, buf: &[u8]) -> io::Result<usize> {
        if self.room == 0 {
            return Err(io::Error::from(ErrorKind::BrokenPipe));
        }
        let count = buf.len().min(self.room);
        self.room -= count;
        Ok(count)
    }

    fn flush(&mut self) -> io::Result<()> {
        Ok(())
    }
}

#[test]
fn failing_write_is_answered(rt: HostRuntime) {
    let machine = machine_of(&rt, &PUTS);
    for room in [0, 1, 51, 52, 115, 116, 339, 340, 4_436, 61_779, 61_780] {
        let mut writer = Narrow { room };
        let written = write_core(&machine, &mut writer);
        expect_eq(&rt, written.is_ok(), room == BEHIND_ONE + MEMORY);
        expect_eq(&rt, writer.room, 0);
    }
}

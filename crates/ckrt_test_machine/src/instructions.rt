//! Words from outside, with their texts and the instructions that they encode.

use crate::expect::{expect_bytes, expect_eq};
use ckrt_rv32i::{AluOp, Condition, ImmOp, Instr, Size, decode, encode, instr_text, parse_instr};
use std::process::Abort;

const WORDS: &[(u32, &str, Instr)] = &[
    (
        0x04100513,
        "addi x10, x0, 65",
        Instr::AluImm {
            op: ImmOp::Addi,
            rd: 10,
            rs1: 0,
            imm: 65,
        },
    ),
    (
        0x40b50533,
        "sub x10, x10, x11",
        Instr::Alu {
            op: AluOp::Sub,
            rd: 10,
            rs1: 10,
            rs2: 11,
        },
    ),
    (
        0x00a12223,
        "sw x10, 4(x2)",
        Instr::Store {
            size: Size::Word,
            rs1: 2,
            rs2: 10,
            offset: 4,
        },
    ),
    (0xffdff06f, "jal x0, -4", Instr::Jal { rd: 0, offset: -4 }),
    (
        0x00008067,
        "jalr x0, 0(x1)",
        Instr::Jalr {
            rd: 0,
            rs1: 1,
            offset: 0,
        },
    ),
    (0x000012b7, "lui x5, 1", Instr::Lui { rd: 5, imm: 1 }),
    (
        0x0ff0000f,
        "fence x0, x0, 255",
        Instr::Fence {
            rd: 0,
            rs1: 0,
            imm: 255,
        },
    ),
    (
        0x00001363,
        "bne x0, x0, 6",
        Instr::Branch {
            condition: Condition::Ne,
            rs1: 0,
            rs2: 0,
            offset: 6,
        },
    ),
    (
        0xfff03513,
        "sltiu x10, x0, -1",
        Instr::AluImm {
            op: ImmOp::Sltiu,
            rd: 10,
            rs1: 0,
            imm: -1,
        },
    ),
];

/// No instruction's texts: one byte too many or too few, another way to write a number, a field out of its range.
const NO_TEXTS: &[&str] = &[
    "",
    " ",
    "-",
    "addi",
    "addi x10, x0",
    "addi x10, x0, ",
    "addi x10, x0, 65 ",
    " addi x10, x0, 65",
    "addi  x10, x0, 65",
    "addi x10,x0,65",
    "addi x10 x0 65",
    "addi x10, x0, 065",
    "addi x010, x0, 65",
    "addi x10, x0, +65",
    "addi x10, x0, -0",
    "addi x10, x0, 0x41",
    "addi x10, x0, 65, 0",
    "ADDI x10, x0, 65",
    "addi X10, x0, 65",
    "addi a0, x0, 65",
    "addi x32, x0, 65",
    "addi x42, x0, 65",
    "addi x266, x0, 65",
    "addi x10, x0, 2048",
    "addi x10, x0, -2049",
    "addi x10, x0, 4294967361",
    "addi x10, x0, 18446744073709551681",
    "sw x10, 4",
    "sw x10, 4(x2",
    "sw x10, 4(2)",
    "sw x10, (x2)",
    "jalr x0, x1, 0",
    "jal x0, -3",
    "jal x0, 1048576",
    "bne x0, x0, 4096",
    "lui x5, -1",
    "lui x5, 1048576",
    "slli x5, x5, 32",
    "slli x5, x5, -1",
    "fence",
    "fence x0, x0, 4096",
    "ecall ",
    "ecall x0",
    "ebreak\n",
    "fence.i",
    "nop",
];

/// The word, the text and the instruction belong together, each way.
fn expect_encoding<R: Abort>(rt: &R, word: u32, text: &str, instr: Instr) {
    expect_eq(rt, decode(word), Some(instr));
    expect_eq(rt, parse_instr(text.as_bytes()), Some(instr));
    assert!(rt; instr.in_range());
    expect_eq(rt, encode(&instr), word);
    expect_bytes(rt, instr_text(&instr).as_bytes(), text.as_bytes());
}

#[test]
fn words_texts_and_instructions(rt: HostRuntime) {
    for (word, text, instr) in WORDS {
        expect_encoding(&rt, *word, text, *instr);
    }
}

#[test]
fn texts_of_no_instruction(rt: HostRuntime) {
    for text in NO_TEXTS {
        expect_eq(&rt, parse_instr(text.as_bytes()), None);
    }
}

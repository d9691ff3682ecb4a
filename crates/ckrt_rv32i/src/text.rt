//! The text of an instruction.
ghost use Rattle.std.specs.Prelude.{◌≡◌, ◌+◌, ◌<◌, ◌≤◌, ◌^◌, ◌++◌, length, decimal, codes};
ghost use Rattle.std.specs.Fmt.{signed_decimal};
ghost use Rattle.arrayvec.specs.ArrayString.{array_string_len};
ghost use Rattle.ckrt_rv32i.specs.Table.{FitsBits, IsInRange};
ghost use Rattle.ckrt_rv32i.specs.Text.{condition_name, load_name, store_name, imm_name, shift_name, alu_name, name_of, register, operands_of, text_of};

use crate::instruction::{AluOp, Condition, ImmOp, Instr, LoadKind, ShiftOp};
use crate::memory_bus::Size;
use arrayvec::ArrayString;
use itoa::Buffer;

/// How many bytes a text has at most.
const TEXT_LIMIT: usize = 24;

fn condition_name(condition: Condition) -> &'static str
    ensures value { result.now ≡ condition_name condition }
    ensures short { length result.now ≤ 6 }
{
    match condition {
        Condition::Eq => "beq",
        Condition::Ne => "bne",
        Condition::Lt => "blt",
        Condition::Ge => "bge",
        Condition::Ltu => "bltu",
        Condition::Geu => "bgeu",
    }
}

fn load_name(kind: LoadKind) -> &'static str
    ensures value { result.now ≡ load_name kind }
    ensures short { length result.now ≤ 6 }
{
    match kind {
        LoadKind::Byte => "lb",
        LoadKind::Half => "lh",
        LoadKind::Word => "lw",
        LoadKind::ByteUnsigned => "lbu",
        LoadKind::HalfUnsigned => "lhu",
    }
}

fn store_name(size: Size) -> &'static str
    ensures value { result.now ≡ store_name size }
    ensures short { length result.now ≤ 6 }
{
    match size {
        Size::Byte => "sb",
        Size::Half => "sh",
        Size::Word => "sw",
    }
}

fn imm_name(op: ImmOp) -> &'static str
    ensures value { result.now ≡ imm_name op }
    ensures short { length result.now ≤ 6 }
{
    match op {
        ImmOp::Addi => "addi",
        ImmOp::Slti => "slti",
        ImmOp::Sltiu => "sltiu",
        ImmOp::Xori => "xori",
        ImmOp::Ori => "ori",
        ImmOp::Andi => "andi",
    }
}

fn shift_name(op: ShiftOp) -> &'static str
    ensures value { result.now ≡ shift_name op }
    ensures short { length result.now ≤ 6 }
{
    match op {
        ShiftOp::Slli => "slli",
        ShiftOp::Srli => "srli",
        ShiftOp::Srai => "srai",
    }
}

fn alu_name(op: AluOp) -> &'static str
    ensures value { result.now ≡ alu_name op }
    ensures short { length result.now ≤ 6 }
{
    match op {
        AluOp::Add => "add",
        AluOp::Sub => "sub",
        AluOp::Sll => "sll",
        AluOp::Slt => "slt",
        AluOp::Sltu => "sltu",
        AluOp::Xor => "xor",
        AluOp::Srl => "srl",
        AluOp::Sra => "sra",
        AluOp::Or => "or",
        AluOp::And => "and",
    }
}

/// The name of the instruction.
pub(crate) fn instr_name(instr: &Instr) -> &'static str
    ensures value { result.now ≡ name_of instr.now }
    ensures short { length result.now ≤ 6 }
{
    match *instr {
        Instr::Lui { .. } => "lui",
        Instr::Auipc { .. } => "auipc",
        Instr::Jal { .. } => "jal",
        Instr::Jalr { .. } => "jalr",
        Instr::Branch { condition, .. } => condition_name(condition),
        Instr::Load { kind, .. } => load_name(kind),
        Instr::Store { size, .. } => store_name(size),
        Instr::AluImm { op, .. } => imm_name(op),
        Instr::Shift { op, .. } => shift_name(op),
        Instr::Alu { op, .. } => alu_name(op),
        Instr::Fence { .. } => "fence",
        Instr::Ecall => "ecall",
        Instr::Ebreak => "ebreak",
    }
}

#[tactic(auto, using(crate::proofs::TextLaws::two_digits))]
fn push_register(text: &mut ArrayString<TEXT_LIMIT>, r: u8)
    requires register { r < 32 }
    requires room { array_string_len text.old + 3 ≤ TEXT_LIMIT }
    ensures bytes { text.new.bytes ≡ text.old.bytes ++ register r }
    ensures len { array_string_len text.new ≤ array_string_len text.old + 3 }
{
    text.push_str("x");
    text.push_str(Buffer::new().format(r));
}

/// Appends the first operand, and what stands round it.
fn push_first(text: &mut ArrayString<TEXT_LIMIT>, r: u8)
    requires register { r < 32 }
    requires room { array_string_len text.old + 6 ≤ TEXT_LIMIT }
    ensures bytes { text.new.bytes ≡ text.old.bytes ++ codes " " ++ register r ++ codes ", " }
    ensures len { array_string_len text.new ≤ array_string_len text.old + 6 }
{
    text.push_str(" ");
    push_register(text, r);
    text.push_str(", ");
}

/// Appends the first two operands, and what stands round them.
fn push_two(text: &mut ArrayString<TEXT_LIMIT>, first: u8, second: u8)
    requires registers { (first < 32) × (second < 32) }
    requires room { array_string_len text.old + 11 ≤ TEXT_LIMIT }
    ensures bytes { text.new.bytes
        ≡ text.old.bytes ++ codes " " ++ register first ++ codes ", " ++ register second
        ++ codes ", " }
    ensures len { array_string_len text.new ≤ array_string_len text.old + 11 }
{
    push_first(text, first);
    push_register(text, second);
    text.push_str(", ");
}

/// Appends an immediate of 12 bits, or the offset of a branch.
#[tactic(auto, using(crate::proofs::TextLaws::immediate_length))]
fn push_immediate(text: &mut ArrayString<TEXT_LIMIT>, imm: i32)
    requires fits { FitsBits 13 imm }
    requires room { array_string_len text.old + 5 ≤ TEXT_LIMIT }
    ensures bytes { text.new.bytes ≡ text.old.bytes ++ signed_decimal imm }
    ensures len { array_string_len text.new ≤ array_string_len text.old + 5 }
{
    text.push_str(Buffer::new().format(imm));
}

/// Appends the offset of a jump.
#[tactic(auto, using(crate::proofs::TextLaws::jump_length))]
fn push_jump(text: &mut ArrayString<TEXT_LIMIT>, offset: i32)
    requires fits { FitsBits 21 offset }
    requires room { array_string_len text.old + 8 ≤ TEXT_LIMIT }
    ensures { text.new.bytes ≡ text.old.bytes ++ signed_decimal offset }
{
    text.push_str(Buffer::new().format(offset));
}

/// Appends an unsigned number of at most 20 bits.
#[tactic(auto, using(crate::proofs::TextLaws::upper_length))]
fn push_unsigned(text: &mut ArrayString<TEXT_LIMIT>, number: u32)
    requires small { number < 2 ^ 20 }
    requires room { array_string_len text.old + 7 ≤ TEXT_LIMIT }
    ensures { text.new.bytes ≡ text.old.bytes ++ decimal number }
{
    text.push_str(Buffer::new().format(number));
}

/// Appends an offset from a register.
fn push_place(text: &mut ArrayString<TEXT_LIMIT>, offset: i32, r: u8)
    requires register { r < 32 }
    requires offset { FitsBits 12 offset }
    requires room { array_string_len text.old + 10 ≤ TEXT_LIMIT }
    ensures { text.new.bytes
        ≡ text.old.bytes ++ signed_decimal offset ++ codes "(" ++ register r ++ codes ")" }
{
    push_immediate(text, offset);
    text.push_str("(");
    push_register(text, r);
    text.push_str(")");
}

/// Appends what stands after the name.
fn push_operands(text: &mut ArrayString<TEXT_LIMIT>, instr: &Instr)
    requires in_range { IsInRange instr.now }
    requires room { array_string_len text.old ≤ 6 }
    ensures { text.new.bytes ≡ text.old.bytes ++ operands_of instr.now }
{
    match *instr {
        Instr::Lui { rd, imm } | Instr::Auipc { rd, imm } => {
            push_first(text, rd);
            push_unsigned(text, imm);
        }
        Instr::Jal { rd, offset } => {
            push_first(text, rd);
            push_jump(text, offset);
        }
        Instr::Jalr { rd, rs1, offset } => {
            push_first(text, rd);
            push_place(text, offset, rs1);
        }
        Instr::Branch {
            rs1,
            rs2,
            offset,
            ..
        } => {
            push_two(text, rs1, rs2);
            push_immediate(text, offset);
        }
        Instr::Load {
            rd,
            rs1,
            offset,
            ..
        } => {
            push_first(text, rd);
            push_place(text, offset, rs1);
        }
        Instr::Store {
            rs1,
            rs2,
            offset,
            ..
        } => {
            push_first(text, rs2);
            push_place(text, offset, rs1);
        }
        Instr::AluImm { rd, rs1, imm, .. } => {
            push_two(text, rd, rs1);
            push_immediate(text, imm);
        }
        Instr::Shift { rd, rs1, shamt, .. } => {
            push_two(text, rd, rs1);
            push_unsigned(text, shamt as u32);
        }
        Instr::Alu { rd, rs1, rs2, .. } => {
            push_two(text, rd, rs1);
            push_register(text, rs2);
        }
        Instr::Fence { rd, rs1, imm } => {
            push_two(text, rd, rs1);
            push_unsigned(text, imm);
        }
        Instr::Ecall | Instr::Ebreak => {}
    }
}

/// The text of an instruction whose fields are in range (`Instr::in_range` tests it), in this project's own format: the name in lower
/// case, registers as `x0` to `x31`, numbers in decimal, with `-` where negative. The number of LUI and AUIPC is the upper 20 bits;
/// offsets are in bytes. `parse_instr` reads it back.
pub fn instr_text(instr: &Instr) -> ArrayString<24>
    requires { IsInRange instr.now }
    ensures { result.bytes ≡ text_of instr.now }
{
    let mut text = ArrayString::new();
    text.push_str(instr_name(instr));
    push_operands(&mut text, instr);
    text
}

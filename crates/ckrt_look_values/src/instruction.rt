//! What an instruction does to what is known, and which uses it tells.
ghost use Rattle.std.specs.Prelude.{◌≡◌, ◌<◌};
ghost use Rattle.std.specs.Int.{w32, cast_unsigned};
ghost use Rattle.ckrt_rv32i.specs.Effect.{load_size};
ghost use Rattle.ckrt_rv32i.specs.Table.{IsInRange};
ghost use Rattle.ckrt_look_recording.specs.Accesses.{fetched};
ghost use Rattle.ckrt_look_values.specs.Instructions.{address_by, after_access, after_alu, after_branch, after_hint, after_instruction, after_jump, after_load, after_quiet, after_store, branch_by, by_immediate, by_register, computed, given_at, giving_of, is_begun, is_given, is_over, loaded_from, lowered, lowered_to, operand, put_loaded, put_stored, result_of, right_of, settled, stored_by, stored_over, tell_use, unknown_by, unless_known, use_of, whose, with_address, with_rest};

use crate::bits::{
    Operand, alu_unknown, is_open, loaded_unknown, ones, op_of, shift_of, some, stored_unknown,
};
use crate::value::{Deed, Use, Value, chosen, known, with_unknown};
use crate::values::{Giving, Values};
use ckrt_look_calls::{Moment, Stepping};
use ckrt_look_heap::{Part, is_in_heap};
use ckrt_look_recording::{fetched, may_access};
use ckrt_machine::Machine;
use ckrt_rv32i::{AluOp, Condition, Instr, LoadKind, Size};

/// All bits of a word.
const ALL: u32 = 0xffff_ffff;

/// The stack pointer.
const STACK: u8 = 2;

/// An operation on a register and a word, of which something is known.
#[derive(Clone, Copy)]
pub(crate) struct Operation {
    pub(crate) op: AluOp,
    pub(crate) rd: u8,
    pub(crate) rs1: u8,
    pub(crate) right: u32,
    pub(crate) other: Value,
}

/// What is done with a value.
fn use_of(step: &Stepping, deed: Deed, value: Value) -> Use
    ensures { result ≡ use_of step.now deed value }
{
    Use {
        deed,
        pc: step.regs.pc(),
        link: step.regs.get(1),
        moment: Moment {
            place: step.place,
            thread: step.thread,
        },
        value,
    }
}

/// A use is told, unless its thread owns the lock of the kit's heap.
fn tell_use(machine: &Machine, step: &Stepping, deed: Deed, value: Value, values: &mut Values)
    ensures { values.new ≡ tell_use machine.now.state step.now deed value values.old }
{
    if !is_in_heap(machine.tables(), step.thread) {
        values.tell(&use_of(step, deed, value));
    }
}

/// The same, unless what it hangs on is known.
pub(crate) fn tell(
    machine: &Machine,
    step: &Stepping,
    deed: Deed,
    value: Value,
    values: &mut Values,
)
    ensures { values.new ≡ unless_known machine.now.state step.now deed value values.old }
{
    if value.unknown != 0 {
        tell_use(machine, step, deed, value, values);
    }
}

/// An address comes from a register.
fn tell_address(machine: &Machine, step: &Stepping, deed: Deed, rs1: u8, values: &mut Values)
    ensures { values.new ≡ with_address machine.now.state step.now deed rs1 values.old }
{
    let from = values.register(step.thread, rs1);
    tell(machine, step, deed, from, values);
}

/// Memory that a thread is given.
fn whose(step: &Stepping, is_block: bool) -> Value
    ensures { result ≡ whose step.now is_block }
{
    Value {
        unknown: ALL,
        is_block,
        thread: step.thread,
        place: step.place,
    }
}

/// What a register has.
fn operand(step: &Stepping, register: u8, value: Value) -> Operand
    requires { register < 32 }
    ensures { result ≡ operand step.now register value }
{
    Operand {
        value: step.regs.get(register),
        unknown: value.unknown,
    }
}

/// A branch, which unknown bits decide or not.
fn branch_by(
    machine: &Machine,
    step: &Stepping,
    is_open: bool,
    a: Value,
    b: Value,
    values: &mut Values,
)
    ensures { values.new ≡ branch_by machine.now.state step.now is_open a b values.old }
{
    if is_open {
        tell_use(machine, step, Deed::Branch, chosen(a, b), values);
    }
}

/// A branch.
fn branch(
    machine: &Machine,
    step: &Stepping,
    condition: Condition,
    rs1: u8,
    rs2: u8,
    values: &mut Values,
)
    requires rs1 { rs1 < 32 }
    requires rs2 { rs2 < 32 }
    ensures { values.new
        ≡ after_branch machine.now.state step.now condition rs1 rs2 values.old }
{
    let a = values.register(step.thread, rs1);
    let b = values.register(step.thread, rs2);
    let is_open = is_open(condition, operand(step, rs1, a), operand(step, rs2, b));
    branch_by(machine, step, is_open, a, b, values);
}

/// What is known of what is loaded from where this is known.
fn loaded_from(kind: LoadKind, address: u32, there: Value) -> Value
    ensures { result ≡ loaded_from kind address there }
{
    if there.unknown == 0 {
        return there;
    }
    with_unknown(there, loaded_unknown(kind, address, there.unknown))
}

/// A register gets what is loaded.
fn put_loaded(step: &Stepping, kind: LoadKind, rd: u8, address: u32, values: &mut Values)
    ensures { values.new ≡ put_loaded step.now kind rd address values.old }
{
    let there = values.word(address);
    values.put(step.thread, rd, loaded_from(kind, address, there));
}

/// A load, if it is none that faults.
fn load(
    machine: &Machine,
    step: &Stepping,
    kind: LoadKind,
    rd: u8,
    address: u32,
    values: &mut Values,
)
    ensures { values.new
        ≡ after_load machine.now.state step.now kind rd address values.old }
{
    if may_access(machine.memory().as_slice(), address, kind.size()) {
        put_loaded(step, kind, rd, address, values);
    }
}

/// Whether a store is to a block that its thread is just given.
fn is_given(step: &Stepping, address: u32, giving: &Giving) -> bool
    ensures { result ≡ is_given step.now address giving.now }
{
    giving.value.thread == step.thread
        && AluOp::Sub.apply(address / 4, giving.part.first) < giving.part.count
}

/// What is known of a word there, if its thread is just given the block.
fn given_at(step: &Stepping, address: u32, giving: Option<Giving>) -> Option<Value>
    ensures { result ≡ given_at step.now address giving }
{
    let giving = giving?;
    if is_given(step, address, &giving) {
        Some(giving.value)
    } else {
        None
    }
}

/// What is known of a word after a store.
fn stored_over(size: Size, address: u32, value: Value, there: Value) -> Value
    ensures { result ≡ stored_over size address value there }
{
    let unknown = stored_unknown(size, address, value.unknown, there.unknown);
    let stored = with_unknown(value, value.unknown & ones(size));
    with_unknown(chosen(stored, there), unknown)
}

/// The same, where a block may be just given.
fn stored_by(size: Size, address: u32, value: Value, there: Value, given: Option<Value>) -> Value
    ensures { result ≡ stored_by size address value there given }
{
    match given {
        Some(given) => given,
        None => stored_over(size, address, value, there),
    }
}

/// A word gets what is stored.
fn put_stored(step: &Stepping, size: Size, rs2: u8, address: u32, values: &mut Values)
    ensures { values.new ≡ put_stored step.now size rs2 address values.old }
{
    let value = values.register(step.thread, rs2);
    let there = values.word(address);
    let given = given_at(step, address, values.giving());
    values.set_word(address, stored_by(size, address, value, there, given));
}

/// A store, if it is none that faults.
fn store(machine: &Machine, step: &Stepping, size: Size, rs2: u8, address: u32, values: &mut Values)
    ensures { values.new
        ≡ after_store machine.now.state step.now size rs2 address values.old }
{
    if may_access(machine.memory().as_slice(), address, size) {
        put_stored(step, size, rs2, address, values);
    }
}

/// Whether an instruction puts the first part of an address into the stack pointer: the next one only completes it.
fn is_begun(instr: Option<Instr>) -> bool
    ensures { result ≡ is_begun instr }
{
    match instr {
        Some(Instr::Lui { rd, .. }) => rd == STACK,
        Some(Instr::Auipc { rd, .. }) => rd == STACK,
        _ => false,
    }
}

/// A stack pointer that is lowered gives a frame.
fn lower_to(stack: u32, step: &Stepping, values: &mut Values)
    ensures { values.new ≡ lowered_to stack step.now values.old }
{
    let was = step.regs.get(STACK);
    if stack < was {
        let part = Part {
            first: stack / 4,
            count: (was - stack) / 4,
        };
        values.set_part(part, whose(step, false));
    }
}

/// The same, where the stack pointer is computed from itself.
fn lower(machine: &Machine, step: &Stepping, it: &Operation, values: &mut Values)
    ensures { values.new ≡ lowered machine.now.state step.now it.now values.old }
{
    if it.rd == STACK && it.rs1 == STACK {
        if is_begun(fetched(machine.memory().as_slice(), step.regs.pc().wrapping_sub(4))) {
            return;
        }
        let stack = it.op.apply(step.regs.get(STACK), it.right);
        lower_to(stack, step, values);
    }
}

/// The unknown bits of a result.
fn unknown_by(op: AluOp, a: Operand, b: Operand) -> u32
    ensures { result ≡ unknown_by op a b }
{
    if some(a, b) == 0 {
        return 0;
    }
    alu_unknown(op, a, b)
}

/// What is known of a result.
fn result_of(step: &Stepping, it: &Operation, value: Value) -> Value
    requires { it.now.rs1 < 32 }
    ensures { result ≡ result_of step.now it.now value }
{
    let right = Operand {
        value: it.right,
        unknown: it.other.unknown,
    };
    let unknown = unknown_by(it.op, operand(step, it.rs1, value), right);
    with_unknown(chosen(value, it.other), unknown)
}

/// A result in a register.
fn compute(machine: &Machine, step: &Stepping, it: &Operation, values: &mut Values)
    requires { it.now.rs1 < 32 }
    ensures { values.new ≡ computed machine.now.state step.now it.now values.old }
{
    let value = values.register(step.thread, it.rs1);
    lower(machine, step, it, values);
    values.put(step.thread, it.rd, result_of(step, it, value));
}

/// An operation on a register and a word that is known.
fn by_word(op: AluOp, rd: u8, rs1: u8, right: u32) -> Operation
    ensures { result ≡ by_immediate op rd rs1 right }
{
    Operation {
        op,
        rd,
        rs1,
        right,
        other: known(),
    }
}

/// What is nobody's: told by the function that gives a block, it is the rest of the block.
fn leave_rest(step: &Stepping, part: Part, values: &mut Values)
    ensures { values.new ≡ with_rest step.now part values.old.giving values.old }
{
    if let Some(giving) = values.giving() {
        if giving.value.thread == step.thread {
            values.set_part(part, giving.value);
        }
    }
}

/// What the kit tells.
fn hint(step: &Stepping, op: AluOp, rs1: u8, rs2: u8, values: &mut Values)
    requires rs1 { rs1 < 32 }
    requires rs2 { rs2 < 32 }
    ensures { values.new ≡ after_hint step.now op rs1 rs2 values.old }
{
    let part = Part {
        first: step.regs.get(rs1) / 4,
        count: step.regs.get(rs2) / 4,
    };
    match op {
        AluOp::Slt => values.give(Giving {
            value: whose(step, true),
            part,
            stack: step.regs.get(STACK),
        }),
        AluOp::Sltu => leave_rest(step, part, values),
        _ => {}
    }
}

/// An operation on two registers.
fn alu(machine: &Machine, step: &Stepping, op: AluOp, rd: u8, rs1: u8, rs2: u8, values: &mut Values)
    requires rs1 { rs1 < 32 }
    requires rs2 { rs2 < 32 }
    ensures { values.new ≡ after_alu machine.now.state step.now op rd rs1 rs2 values.old }
{
    if rd == 0 {
        hint(step, op, rs1, rs2, values);
        return;
    }
    let it = Operation {
        op,
        rd,
        rs1,
        right: step.regs.get(rs2),
        other: values.register(step.thread, rs2),
    };
    compute(machine, step, &it, values);
}

/// A jump to where a register says.
fn jump(machine: &Machine, step: &Stepping, rd: u8, rs1: u8, values: &mut Values)
    ensures { values.new ≡ after_jump machine.now.state step.now rd rs1 values.old }
{
    tell_address(machine, step, Deed::Jump, rs1, values);
    values.put(step.thread, rd, known());
}

/// The address of a load or a store.
fn address_by(step: &Stepping, rs1: u8, offset: i32) -> u32
    requires { rs1 < 32 }
    ensures { result ≡ address_by step.now rs1 offset }
{
    step.regs.get(rs1).wrapping_add_signed(offset)
}

/// A load or a store.
fn watch_access(machine: &Machine, step: &Stepping, instr: Instr, values: &mut Values)
    requires { IsInRange instr }
    ensures { values.new ≡ after_access machine.now.state step.now instr values.old }
{
    match instr {
        Instr::Load {
            kind,
            rd,
            rs1,
            offset,
        } => {
            tell_address(machine, step, Deed::Load, rs1, values);
            let address = address_by(step, rs1, offset);
            load(machine, step, kind, rd, address, values);
        }
        Instr::Store {
            size,
            rs1,
            rs2,
            offset,
        } => {
            tell_address(machine, step, Deed::Store, rs1, values);
            let address = address_by(step, rs1, offset);
            store(machine, step, size, rs2, address, values);
        }
        _ => {}
    }
}

/// An instruction.
fn watch_instruction(machine: &Machine, step: &Stepping, values: &mut Values)
    ensures { values.new ≡ after_instruction machine.now.state step.now
        (fetched machine.now.state.bytes step.now.regs.pc) values.old }
{
    match fetched(machine.memory().as_slice(), step.regs.pc()) {
        Some(Instr::Lui { rd, .. }) => values.put(step.thread, rd, known()),
        Some(Instr::Auipc { rd, .. }) => values.put(step.thread, rd, known()),
        Some(Instr::Jal { rd, .. }) => values.put(step.thread, rd, known()),
        Some(Instr::Jalr { rd, rs1, .. }) => jump(machine, step, rd, rs1, values),
        Some(
            Instr::Branch {
                condition,
                rs1,
                rs2,
                ..
            },
        ) => branch(machine, step, condition, rs1, rs2, values),
        Some(Instr::AluImm { op, rd, rs1, imm }) => {
            let it = by_word(op_of(op), rd, rs1, imm.cast_unsigned());
            compute(machine, step, &it, values);
        }
        Some(Instr::Shift { op, rd, rs1, shamt }) => {
            let it = by_word(shift_of(op), rd, rs1, u32::from(shamt));
            compute(machine, step, &it, values);
        }
        Some(Instr::Alu { op, rd, rs1, rs2 }) => alu(machine, step, op, rd, rs1, rs2, values),
        Some(instr) => watch_access(machine, step, instr, values),
        None => {}
    }
}

/// Whether the function that gave a block has returned: its thread's stack pointer is above the function's.
fn is_over(step: &Stepping, giving: &Giving) -> bool
    ensures { result ≡ is_over step.now giving.now }
{
    giving.value.thread == step.thread && giving.stack < step.regs.get(STACK)
}

/// A block is no more just given, once the function that gave it has returned.
fn settle(step: &Stepping, values: &mut Values)
    ensures { values.new ≡ settled step.now values.old }
{
    if let Some(giving) = values.giving() {
        if is_over(step, &giving) {
            values.end_giving();
        }
    }
}

/// A step that is an instruction, and no call.
pub(crate) fn watch_quiet(machine: &Machine, step: &Stepping, values: &mut Values)
    ensures { values.new ≡ after_quiet machine.now.state step.now values.old }
{
    settle(step, values);
    watch_instruction(machine, step, values);
}

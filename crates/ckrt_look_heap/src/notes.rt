//! What a step notes: loads and stores, and what the kit tells of memory.
ghost use Rattle.std.specs.Prelude.{◌≡◌};
ghost use Rattle.ckrt_mutex.specs.Mutex.{is_owner, mutex_at};
ghost use Rattle.ckrt_look_recording.specs.Accesses.{fetched};
ghost use Rattle.ckrt_look_heap.specs.declared.shadow.Note.TheVariants as note;
ghost use Rattle.ckrt_look_heap.specs.Notes.{access_of, block_of, free_of, is_in_heap, moment_of, notes, of_instruction, told_by, unless_in_heap, unowned, use_at};
ghost use Rattle.ckrt_look_heap.specs.Within.{noted_all};

use crate::block::{Access, Block, Deed, Part};
use crate::shadow::Shadow;
use ckrt_calls::Tables;
use ckrt_look_calls::{Moment, Stepping};
use ckrt_look_recording::{byte_count, fetched, may_access};
use ckrt_machine::Machine;
use ckrt_rv32i::{AluOp, Instr, Size};
use ckrt_thread::ThreadId;

/// The name of the lock of a kit's heap.
const HEAP_LOCK: u32 = 2;

/// Whether a thread owns the lock of a kit's heap: what it does there isn't told.
pub fn is_in_heap(tables: &Tables, thread: ThreadId) -> bool
    ensures { result ≡ is_in_heap thread tables.now }
{
    tables.mutexes.mutex(HEAP_LOCK).is_owned_by(thread)
}

/// Who makes a step, and where.
fn moment_of(step: &Stepping) -> Moment
    ensures { result ≡ moment_of step.now }
{
    Moment {
        place: step.place,
        thread: step.thread,
    }
}

/// The load or store of a step.
fn access_of(step: &Stepping, deed: Deed, address: u32, size: Size) -> Access
    ensures { result ≡ access_of step.now deed address size }
{
    Access {
        deed,
        pc: step.regs.pc(),
        link: step.regs.get(1),
        address,
        size: byte_count(size),
        moment: moment_of(step),
    }
}

/// A load or a store is noted unless its thread is within the heap. Most are right, and then nobody asks.
fn note_use(tables: &Tables, step: &Stepping, access: &Access, shadow: &mut Shadow)
    ensures { shadow.new ≡ noted_all (unless_in_heap
        (is_in_heap step.now.thread tables.now) (note.Use access.now)) shadow.old }
{
    if shadow.wrong(access).is_none() {
        return;
    }
    if is_in_heap(tables, step.thread) {
        return;
    }
    shadow.access(access);
}

/// A load or a store, if it is none that faults.
fn watch_use(
    machine: &Machine,
    step: &Stepping,
    deed: Deed,
    address: u32,
    size: Size,
    shadow: &mut Shadow,
)
    ensures { shadow.new ≡ noted_all
        (use_at machine.now.state step.now deed address size) shadow.old }
{
    if may_access(machine.memory().as_slice(), address, size) {
        let access = access_of(step, deed, address, size);
        note_use(machine.tables(), step, &access, shadow);
    }
}

/// The block that a step tells of.
fn block_of(step: &Stepping, from: u32, bytes: u32) -> Block
    ensures { result ≡ block_of step.now from bytes }
{
    let count = bytes / 4;
    Block {
        first: from / 4,
        count,
        bytes: (4 * count).saturating_sub(4 + from % 4),
        taken: moment_of(step),
    }
}

/// A block that a step gives back: by the call of a function.
fn free_of(step: &Stepping, address: u32) -> Access
    ensures { result ≡ free_of step.now address }
{
    let link = step.regs.get(1);
    Access {
        deed: Deed::Free,
        pc: link.saturating_sub(4),
        link,
        address,
        size: 0,
        moment: moment_of(step),
    }
}

/// Memory that is nobody's, or a block that is given back.
fn watch_unowned(machine: &Machine, step: &Stepping, from: u32, bytes: u32, shadow: &mut Shadow)
    ensures { shadow.new ≡ noted_all
        (unowned machine.now.state step.now from bytes) shadow.old }
{
    if bytes == 0 {
        let is_told = !is_in_heap(machine.tables(), step.thread);
        shadow.free(&free_of(step, from), is_told);
        return;
    }
    let part = Part {
        first: from / 4,
        count: bytes / 4,
    };
    shadow.disown(part, moment_of(step));
}

/// What an instruction with these two operands tells.
fn watch_told(
    machine: &Machine,
    step: &Stepping,
    op: AluOp,
    from: u32,
    bytes: u32,
    shadow: &mut Shadow,
)
    ensures { shadow.new ≡ noted_all
        (told_by machine.now.state step.now op from bytes) shadow.old }
{
    match op {
        AluOp::Slt => shadow.give(&block_of(step, from, bytes)),
        AluOp::Sltu => watch_unowned(machine, step, from, bytes, shadow),
        _ => {}
    }
}

/// What an instruction notes.
fn watch_instruction(machine: &Machine, step: &Stepping, shadow: &mut Shadow)
    ensures { shadow.new ≡ noted_all (of_instruction machine.now.state step.now
        (fetched machine.now.state.bytes step.now.regs.pc)) shadow.old }
{
    match fetched(machine.memory().as_slice(), step.regs.pc()) {
        Some(
            Instr::Load {
                kind,
                rs1,
                offset,
                ..
            },
        ) => {
            let address = step.regs.get(rs1).wrapping_add_signed(offset);
            watch_use(machine, step, Deed::Load, address, kind.size(), shadow);
        }
        Some(
            Instr::Store {
                size,
                rs1,
                offset,
                ..
            },
        ) => {
            let address = step.regs.get(rs1).wrapping_add_signed(offset);
            watch_use(machine, step, Deed::Store, address, size, shadow);
        }
        Some(Instr::Alu { op, rd, rs1, rs2 }) if rd == 0 => {
            watch_told(
                machine,
                step,
                op,
                step.regs.get(rs1),
                step.regs.get(rs2),
                shadow,
            );
        }
        _ => {}
    }
}

/// A shadow gets what a step notes, if somebody makes it, and it is an instruction. It takes no memory.
pub fn watch_notes(machine: &Machine, step: &Option<Stepping>, shadow: &mut Shadow)
    ensures { shadow.new ≡ noted_all (notes step.now machine.now.state) shadow.old }
{
    if let Some(step) = step {
        watch_instruction(machine, step, shadow);
    }
}

//! Loads and stores, and memory that is given anew.
ghost use Rattle.std.specs.Prelude.{◌≡◌, ◌<◌, ◌%◌};
ghost use Rattle.ckrt_machine.specs.Steps.{hart_of};
ghost use Rattle.ckrt_look_clocks.specs.declared.operation.Operation.TheVariants as operation;
ghost use Rattle.ckrt_look_clocks.specs.Within.{noted_all};
ghost use Rattle.ckrt_look_recording.specs.Accesses.{fetched};
ghost use Rattle.ckrt_look_races.specs.Accesses.{access_of, accesses, block_of, place_behind, fence_by, fence_operations, is_renewal, is_thread_fence, is_word_at, load_at, load_operations, load_order, of_instruction, order_by, renewal_by, store_at, store_operations, store_order, told};

use crate::holders::{Lock, acquired, handed_on, released, thread_holder};
use crate::kit::is_in_kit;
use ckrt_look_clocks::{Access, Block, Detector, Place};
use ckrt_look_recording::{byte_count, fetched, may_access};
use ckrt_machine::Machine;
use ckrt_memory::Memory;
use ckrt_registers::Regs;
use ckrt_rv32i::{AluOp, Bus, Instr, Size};

/// FENCE R,RW stands behind an atomic load that acquires.
const FENCE_R_RW: u32 = 0x0230_000F;

/// FENCE RW,W stands before an atomic store that releases.
const FENCE_RW_W: u32 = 0x0310_000F;

/// FENCE R,R stands behind a relaxed atomic load.
const FENCE_R_R: u32 = 0x0220_000F;

/// FENCE W,W stands before a relaxed atomic store.
const FENCE_W_W: u32 = 0x0110_000F;

/// Whether a load or store is atomic, and what it does then for the order of threads.
#[derive(Clone, Copy)]
pub(crate) enum Order {
    /// It isn't atomic.
    Plain,
    /// It is atomic, and orders only beside a fence of its thread.
    Relaxed,
    /// It is a load that acquires, or a store that releases.
    Orders,
}

/// Who makes a step, whether under a lock of a kit, where, and with which registers.
#[derive(Clone, Copy)]
pub(crate) struct Stepping {
    pub(crate) thread: u8,
    pub(crate) is_in_kit: bool,
    pub(crate) place: Place,
    pub(crate) regs: Regs,
}

/// The order of an access that has one of these words beside it, or none.
fn order_by(memory: &Memory, address: u32, orders: u32, relaxed: u32) -> Order
    requires { address % 4 ≡ 0 }
    ensures { result ≡ order_by (is_word_at memory.now.bytes address orders)
        (is_word_at memory.now.bytes address relaxed) }
{
    let word = memory.load(address, Size::Word);
    if word == Some(orders) {
        return Order::Orders;
    }
    if word == Some(relaxed) {
        Order::Relaxed
    } else {
        Order::Plain
    }
}

/// The order of the load of a step.
fn load_order(memory: &Memory, step: &Stepping) -> Order
    requires { step.now.regs.pc % 4 ≡ 0 }
    ensures { result ≡ load_order memory.now.bytes step.now }
{
    order_by(
        memory,
        step.regs.pc().wrapping_add(4),
        FENCE_R_RW,
        FENCE_R_R,
    )
}

/// The order of the store of a step.
fn store_order(memory: &Memory, step: &Stepping) -> Order
    requires { step.now.regs.pc % 4 ≡ 0 }
    ensures { result ≡ store_order memory.now.bytes step.now }
{
    order_by(
        memory,
        step.regs.pc().saturating_sub(4),
        FENCE_RW_W,
        FENCE_W_W,
    )
}

/// The load or store of a step.
fn access_of(step: &Stepping, is_store: bool, is_atomic: bool, address: u32, size: Size) -> Access
    ensures { result ≡ access_of step.now is_store is_atomic address size }
{
    Access {
        thread: thread_holder(u32::from(step.thread)) as u8,
        is_store,
        is_atomic,
        pc: step.regs.pc(),
        address,
        size: byte_count(size),
        place: step.place,
    }
}

/// A plain access is told unless its thread is in a kit.
fn tell(step: &Stepping, access: &Access, detector: &mut Detector)
    ensures { detector.new
        ≡ noted_all (told step.now (operation.Access access.now)) detector.old }
{
    if !step.is_in_kit {
        detector.access(access);
    }
}

/// A load. What was given up to the word its thread takes before one that acquires, and by its next fence behind a relaxed one.
fn note_load(step: &Stepping, order: Order, address: u32, size: Size, detector: &mut Detector)
    ensures { detector.new
        ≡ noted_all (load_operations step.now order address size) detector.old }
{
    let word = Lock::Word(address);
    match order {
        Order::Plain => {
            return tell(
                step,
                &access_of(step, false, false, address, size),
                detector,
            );
        }
        Order::Relaxed => {
            let loaded = Lock::Loaded(u32::from(step.thread));
            detector.note(&handed_on(word, loaded, step.place));
        }
        Order::Orders => detector.note(&acquired(step.thread, word, step.place)),
    }
    detector.access(&access_of(step, false, true, address, size));
}

/// The place behind a step.
fn place_behind(place: Place) -> Place
    requires { place.step < 4294967295 }
    ensures { result ≡ place_behind place }
{
    Place {
        event: place.event,
        step: place.step + 1,
    }
}

/// A store. Behind one that releases its thread gives up all that it has done, this store too, and behind a relaxed one what it had
/// done by its last fence.
fn note_store(step: &Stepping, order: Order, address: u32, size: Size, detector: &mut Detector)
    requires { step.now.place.step < 4294967295 }
    ensures { detector.new
        ≡ noted_all (store_operations step.now order address size) detector.old }
{
    if let Order::Plain = order {
        return tell(step, &access_of(step, true, false, address, size), detector);
    }
    detector.access(&access_of(step, true, true, address, size));
    let (word, behind) = (Lock::Word(address), place_behind(step.place));
    if let Order::Relaxed = order {
        let fenced = Lock::Fenced(u32::from(step.thread));
        return detector.note(&handed_on(fenced, word, behind));
    }
    detector.note(&released(step.thread, word, behind));
}

/// A load, if it is none that faults.
fn watch_load(memory: &Memory, step: &Stepping, address: u32, size: Size, detector: &mut Detector)
    requires { step.now.regs.pc % 4 ≡ 0 }
    ensures { detector.new
        ≡ noted_all (load_at memory.now.bytes step.now address size) detector.old }
{
    if may_access(memory.as_slice(), address, size) {
        note_load(step, load_order(memory, step), address, size, detector);
    }
}

/// A store, if it is none that faults.
fn watch_store(memory: &Memory, step: &Stepping, address: u32, size: Size, detector: &mut Detector)
    requires aligned { step.now.regs.pc % 4 ≡ 0 }
    requires room { step.now.place.step < 4294967295 }
    ensures { detector.new
        ≡ noted_all (store_at memory.now.bytes step.now address size) detector.old }
{
    if may_access(memory.as_slice(), address, size) {
        note_store(step, store_order(memory, step), address, size, detector);
    }
}

/// Whether a fence with these sets is one of its thread: they have R and W before and behind.
fn is_thread_fence(sets: u32) -> bool
    ensures { result ≡ is_thread_fence sets }
{
    sets / 16 % 4 == 3 && sets % 4 == 3
}

/// A fence: its thread takes what its relaxed loads have met, and gives up what its relaxed stores hand on.
fn watch_fence(step: &Stepping, sets: u32, detector: &mut Detector)
    ensures { detector.new ≡ noted_all (fence_by step.now sets) detector.old }
{
    if is_thread_fence(sets) {
        let thread = u32::from(step.thread);
        detector.note(&acquired(step.thread, Lock::Loaded(thread), step.place));
        detector.note(&released(step.thread, Lock::Fenced(thread), step.place));
    }
}

/// Whether an instruction tells of memory that is given anew.
fn is_renewal(op: AluOp, rd: u8) -> bool
    ensures { result ≡ is_renewal op rd }
{
    match op {
        AluOp::Slt => rd == 0,
        _ => false,
    }
}

/// So many bytes from an address on, which a step tells of as given anew.
fn block_of(step: &Stepping, address: u32, bytes: u32) -> Block
    ensures { result ≡ block_of step.now address bytes }
{
    Block {
        thread: thread_holder(u32::from(step.thread)) as u8,
        first: address / 4,
        count: bytes / 4,
        place: step.place,
    }
}

/// Memory that is given anew, if an instruction tells of some.
fn watch_renewal(step: &Stepping, op: AluOp, rd: u8, rs1: u8, rs2: u8, detector: &mut Detector)
    requires first { rs1 < 32 }
    requires second { rs2 < 32 }
    ensures { detector.new ≡ noted_all (renewal_by step.now op rd rs1 rs2) detector.old }
{
    if is_renewal(op, rd) {
        detector.renew(&block_of(step, step.regs.get(rs1), step.regs.get(rs2)));
    }
}

/// What an instruction accesses.
fn watch_instruction(memory: &Memory, step: &Stepping, detector: &mut Detector)
    requires aligned { step.now.regs.pc % 4 ≡ 0 }
    requires room { step.now.place.step < 4294967295 }
    ensures { detector.new
        ≡ noted_all (of_instruction memory.now.bytes step.now
        (fetched memory.now.bytes step.now.regs.pc)) detector.old }
{
    match fetched(memory.as_slice(), step.regs.pc()) {
        Some(
            Instr::Load {
                kind,
                rs1,
                offset,
                ..
            },
        ) => {
            let address = step.regs.get(rs1).wrapping_add_signed(offset);
            watch_load(memory, step, address, kind.size(), detector);
        }
        Some(
            Instr::Store {
                size,
                rs1,
                offset,
                ..
            },
        ) => {
            let address = step.regs.get(rs1).wrapping_add_signed(offset);
            watch_store(memory, step, address, size, detector);
        }
        Some(Instr::Fence { imm, .. }) => watch_fence(step, imm, detector),
        Some(Instr::Alu { op, rd, rs1, rs2 }) => {
            watch_renewal(step, op, rd, rs1, rs2, detector);
        }
        _ => {}
    }
}

/// What the next step of a hart accesses, if that is an instruction.
pub(crate) fn watch_accesses(machine: &Machine, place: Place, hart: u8, detector: &mut Detector)
    requires { place.step < 4294967295 }
    ensures { detector.new
        ≡ noted_all (accesses place (hart_of machine.now.state.tables hart) machine.now.state)
        detector.old }
{
    let threads = &machine.tables().threads;
    threads.known();
    let Some(thread) = threads.on_hart(usize::from(hart)) else {
        return;
    };
    if let Some(regs) = threads.regs(thread) {
        let step = Stepping {
            thread,
            is_in_kit: is_in_kit(machine.tables(), thread),
            place,
            regs,
        };
        watch_instruction(machine.memory(), &step, detector);
    }
}

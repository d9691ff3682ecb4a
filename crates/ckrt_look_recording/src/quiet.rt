//! Quiet steps, and such steps in a row.
ghost use Rattle.std.specs.Prelude.{◌≡◌, ◌%◌, IfSome, None};
ghost use Rattle.ckrt_machine.specs.Runs.{stop_of};
ghost use Rattle.ckrt_machine.specs.Steps.{hart_of};
ghost use Rattle.ckrt_look_recording.specs.Quiet.{GoesQuietly, GoesQuietlyTo, IsCalm, IsLiveOn, IsMetAtCalls, acts_next, calm_of, is_at_gate, is_ecall_at, is_plain, is_quiet};

use ckrt_machine::Machine;
use ckrt_memory::{Memory, StopReason};
use ckrt_rv32i::{Bus, Size};
use ckrt_thread::{Live, RETURN_GATE, Thread, ThreadId, UNWIND_GATE};

/// The word of ECALL.
const ECALL: u32 = 0x73;

/// Whether the word of ECALL stands at an address.
pub fn is_ecall_at(memory: &Memory, pc: u32) -> bool
    requires { pc % 4 ≡ 0 }
    ensures { result ≡ is_ecall_at memory.now.bytes pc }
{
    memory.load(pc, Size::Word) == Some(ECALL)
}

/// Whether the thread's next step is neither a call, nor a return to a gate, nor acts on a request.
fn is_plain(live: &Live, memory: &Memory) -> bool
    requires { live.now.regs.pc % 4 ≡ 0 }
    ensures { result ≡ is_plain live.now memory.now.bytes }
{
    let pc = live.regs.pc();
    pc != RETURN_GATE
        && pc != UNWIND_GATE
        && !live.cancellation.is_immediate()
        && !is_ecall_at(memory, pc)
}

/// Whether the next step of the hart is quiet, and so changes no wait.
pub fn is_quiet(machine: &Machine, hart: u8) -> bool
    ensures { result ≡ is_quiet (hart_of machine.now.state.tables hart) machine.now.state }
{
    let threads = &machine.tables().threads;
    threads.known();
    let Some(thread) = threads.on_hart(usize::from(hart)) else {
        return true;
    };
    match threads.thread(u32::from(thread)) {
        Some(Thread::Live(live)) => is_plain(live, machine.memory()),
        _ => true,
    }
}

/// Whether the word of ECALL stands at an address, of these bytes from address 4,096 on.
#[inline(always)]
fn is_ecall_in(bytes: &[u8], pc: u32) -> bool
    ensures { result ≡ is_ecall_at bytes.now pc }
{
    let at = pc.wrapping_sub(4096) as usize;
    if pc < 4096 || bytes.len() < at + 4 {
        return false;
    }
    bytes[at] as u32 == ECALL && bytes[at + 1] == 0 && bytes[at + 2] == 0 && bytes[at + 3] == 0
}

/// Whether a pc is at a gate.
#[inline(always)]
fn is_at_gate(pc: u32) -> bool
    ensures { result ≡ is_at_gate pc }
{
    pc == RETURN_GATE || pc == UNWIND_GATE
}

/// A reason to stop before each step that isn't quiet, as far as the pc and the bytes tell: before a call, and where the pc is at a gate.
#[derive(Clone, Copy, Debug)]
pub struct AtCalls;

impl StopReason for AtCalls {
    ghost use Rattle.ckrt_look_recording.specs.Quiet.{calls_next};

    ghost meets = { λ at. calls_next };

    #[inline(always)]
    fn is_met(&self, pc: u32, _file: &[u32; 33], bytes: &[u8]) -> bool {
        is_ecall_in(bytes, pc) || is_at_gate(pc)
    }

    #[inline(always)]
    fn is_only_at_jumps(&self) -> bool {
        true
    }
}

/// What holds of every machine: whoever is on a hart hasn't ended.
fn known(machine: &Machine, hart: u8)
    ensures { IsLiveOn hart machine.now.state }
{
    let _ = machine.tables().threads.on_hart(usize::from(hart));
}

/// Whether the thread on a hart acts on a request by its next step.
fn acts_next(machine: &Machine, hart: u8) -> bool
    ensures { result ≡ acts_next (hart_of machine.now.state.tables hart) machine.now.state }
{
    let threads = &machine.tables().threads;
    match threads.on_hart(usize::from(hart)) {
        Some(thread) => threads.live(thread).cancellation.is_immediate(),
        None => false,
    }
}

/// The thread on a hart, if it acts on no request by its next step: it stays there as long as its steps are quiet.
pub fn calm_on(machine: &Machine, hart: u8) -> Option<ThreadId>
    ensures who { result ≡ calm_of (hart_of machine.now.state.tables hart) machine.now.state }
    ensures calm { IfSome result (λ thread. IsCalm hart thread machine.now.state) }
{
    known(machine, hart);
    if acts_next(machine, hart) {
        return None;
    }
    machine.tables().threads.on_hart(usize::from(hart))
}

/// Makes steps of a run that goes on, of the thread on a hart, as long as they are quiet and the reason isn't met before them, and at
/// most so many. The reason is to be met before each call, and at each gate. The answer is how many were made.
pub fn go_quietly_to<R: StopReason>(machine: &mut Machine, hart: u8, limit: u32, reason: &R) -> u32
    requires going { stop_of hart machine.old.state.tables machine.old.output ≡ None }
    requires calls { IsMetAtCalls (R.meets reason.now) }
    ensures { GoesQuietlyTo (R.meets reason.now) limit result hart machine.old machine.new }
{
    known(machine, hart);
    if acts_next(machine, hart) {
        return 0;
    }
    let (left, _) = machine.go_on_to(hart, limit, reason);
    limit - left
}

/// Makes steps of a run that goes on, of the thread on a hart, as long as they are quiet, and at most so many: those that call nothing,
/// return to no gate and act on no request, so that no wait begins or ends. The answer is how many were made: none where the next one
/// isn't quiet.
pub fn go_quietly(machine: &mut Machine, hart: u8, limit: u32) -> u32
    requires { stop_of hart machine.old.state.tables machine.old.output ≡ None }
    ensures { GoesQuietly limit result hart machine.old machine.new }
{
    let made = go_quietly_to(machine, hart, limit, &AtCalls);
    known(machine, hart);
    made
}

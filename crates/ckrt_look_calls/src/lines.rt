//! The lines of a step.
ghost use Rattle.std.specs.Prelude.{◌≡◌, ◌++◌, ◌%◌, Some, OnOk};
ghost use Rattle.std.specs.List.{find, flat_map};
ghost use Rattle.ckrt_thread.specs.Waits.{is_of};
ghost use Rattle.ckrt_calls.specs.declared.table.Status.TheVariants.{Faulted};
ghost use Rattle.ckrt_inspect.specs.Texts.{status_text};
ghost use Rattle.std.specs.Io.KnownBytes.{Appends};
ghost use Rattle.ckrt_thread.specs.State.{thread_of};
ghost use Rattle.ckrt_look_calls.specs.Lines.{answer_text, answered_at, answers_after, call_line, caller_of, calling_of, came_of, came_text, ended_line, fault_line, is_calling, is_retake, lines_between, over_line, over_lines, pc_of, place_text, still_waits, thread_text, unknown_text, waiting_of, waits_text};
ghost use Rattle.ckrt_machine.specs.Steps.{hart_of};

use crate::names::{Answers, answers_of};
use crate::texts::{
    write_answers, write_call, write_counted, write_hex, write_number, write_reason, write_until,
};
use arrayvec::ArrayVec;
use ckrt_calls::{Call, Status, Tables};
use ckrt_look_recording::is_ecall_at;
use ckrt_machine::Machine;
use ckrt_memory::Memory;
use ckrt_registers::Regs;
use ckrt_rv32i::Cause;
use ckrt_thread::{Live, MAX_THREADS, Reason, Thread, ThreadId, Threads, Wait};
use std::io::{Result, Write};

/// So many events are done, and so many steps of the next one.
#[derive(Clone, Copy, Debug, PartialEq, Eq)]
pub struct Place {
    pub event: u64,
    pub step: u32,
}

/// A wait, and the pc of who waits: it is behind the thread's call.
#[derive(Clone, Copy, Debug, Default)]
pub struct Waiting {
    pub wait: Wait,
    pub pc: u32,
}

/// Who makes a call, with the registers before it.
#[derive(Clone, Copy, Debug)]
pub struct Caller {
    pub thread: ThreadId,
    pub regs: Regs,
}

/// What is looked at before a step: who makes a call by it, and who waits.
#[derive(Clone, Debug, Drop)]
pub struct Before {
    pub caller: Option<Caller>,
    pub waiting: ArrayVec<Waiting, MAX_THREADS>,
}

/// Where a line stands.
#[tactic(auto, using(crate::proofs::AppendLemmas::appends_both))]
pub(crate) fn write_place<W: Write>(out: &mut W, place: Place) -> Result<()>
    ensures { OnOk result (Appends (W.contents out.old) (W.contents out.new) (place_text place)) }
{
    write_number(out, place.event)?;
    write_counted(out, b"+", u64::from(place.step))?;
    out.write_all(b" ")
}

/// The begin of a thread's line.
#[tactic(auto, using(crate::proofs::AppendLemmas::appends_both))]
fn write_thread<W: Write>(out: &mut W, place: Place, thread: ThreadId) -> Result<()>
    ensures { OnOk result
        (Appends (W.contents out.old) (W.contents out.new) (thread_text place thread)) }
{
    write_place(out, place)?;
    write_counted(out, b"thread ", u64::from(thread))?;
    out.write_all(b" ")
}

/// What a thread was answered.
#[tactic(auto, using(crate::proofs::AppendLemmas::appends_both))]
fn write_answer<W: Write>(out: &mut W, answers: Answers, regs: &Regs) -> Result<()>
    ensures { OnOk result
        (Appends (W.contents out.old) (W.contents out.new) (answer_text answers regs.now)) }
{
    out.write_all(b" = ")?;
    write_answers(out, answers, regs)
}

/// The answer of a thread whose pc is there, if it is.
fn write_answered<W: Write>(
    out: &mut W,
    pc: u32,
    answers: Answers,
    regs: Option<Regs>,
) -> Result<()>
    ensures { OnOk result
        (Appends (W.contents out.old) (W.contents out.new) (answered_at pc answers regs)) }
{
    match regs {
        Some(regs) if regs.pc() == pc => write_answer(out, answers, &regs),
        _ => out.write_all(b" = ?"),
    }
}

/// What a thread waits for, and until when.
#[tactic(auto, using(crate::proofs::AppendLemmas::appends_both))]
fn write_waits<W: Write>(out: &mut W, wait: &Wait) -> Result<()>
    ensures { OnOk result
        (Appends (W.contents out.old) (W.contents out.new) (waits_text wait.now)) }
{
    out.write_all(b" waits ")?;
    write_reason(out, wait.reason)?;
    write_until(out, wait.deadline)
}

/// What came of a call or a wait of a thread whose pc was to be there.
fn write_came<W: Write>(
    out: &mut W,
    thread: ThreadId,
    pc: u32,
    answers: Answers,
    after: &Tables,
) -> Result<()>
    ensures { OnOk result
        (Appends (W.contents out.old) (W.contents out.new)
        (came_text thread pc answers after.now)) }
{
    if !matches!(after.status, Status::Running) {
        return out.write_all(b" = ?");
    }
    match after.threads.wait_of(thread) {
        Some(wait) => write_waits(out, &wait),
        None => write_answered(out, pc, answers, after.threads.regs(thread)),
    }
}

/// Whether the thread's next step is a call.
fn is_calling(live: &Live, memory: &Memory) -> bool
    requires { live.now.regs.pc % 4 ≡ 0 }
    ensures { result ≡ is_calling live.now memory.now.bytes }
{
    !live.cancellation.is_immediate() && is_ecall_at(memory, live.regs.pc())
}

/// The registers of the thread if its next step is a call.
fn calling(threads: &Threads, thread: ThreadId, memory: &Memory) -> Option<Regs>
    ensures { result ≡ calling_of (thread_of threads.now thread) memory.now.bytes }
{
    threads.known();
    match threads.thread(u32::from(thread)) {
        Some(Thread::Live(live)) if is_calling(live, memory) => Some(live.regs),
        _ => None,
    }
}

/// Who makes a call by the next step of the hart.
pub fn next_caller(machine: &Machine, hart: u8) -> Option<Caller>
    ensures { result ≡ caller_of (hart_of machine.now.state.tables hart) machine.now.state }
{
    let threads = &machine.tables().threads;
    let thread = threads.on_hart(usize::from(hart))?;
    let regs = calling(threads, thread, machine.memory())?;
    Some(Caller { thread, regs })
}

/// The line of a call that was made.
#[tactic(auto, using(crate::proofs::AppendLemmas::appends_both))]
fn write_made_call<W: Write>(
    out: &mut W,
    place: Place,
    caller: &Caller,
    after: &Tables,
) -> Result<()>
    ensures { OnOk result
        (Appends (W.contents out.old) (W.contents out.new)
        (call_line place (Some caller.now) after.now)) }
{
    let call = Call::from_number(caller.regs.get(17));
    let behind = caller.regs.pc().wrapping_add(4);
    write_thread(out, place, caller.thread)?;
    write_call(out, call, &caller.regs)?;
    write_came(out, caller.thread, behind, answers_of(call), after)?;
    out.write_all(b"\n")
}

/// The line of a call, if one was made.
#[tactic(auto, using(crate::proofs::AppendLemmas::appends_none))]
fn write_call_line<W: Write>(
    out: &mut W,
    place: Place,
    caller: &Option<Caller>,
    after: &Tables,
) -> Result<()>
    ensures { OnOk result
        (Appends (W.contents out.old) (W.contents out.new)
        (call_line place caller.now after.now)) }
{
    match caller {
        Some(caller) => write_made_call(out, place, caller, after),
        None => Ok(()),
    }
}

/// The pc of who waits.
fn pc_of(regs: Option<Regs>) -> u32
    ensures { result ≡ pc_of regs }
{
    match regs {
        Some(regs) => regs.pc(),
        None => 0,
    }
}

/// The waits, each with the pc of who waits.
pub(crate) fn waits_now(threads: &Threads) -> ArrayVec<Waiting, MAX_THREADS>
    ensures { result.items ≡ waiting_of threads.now }
{
    let waits = threads.waits();
    let mut waiting = ArrayVec::new();
    for wait in waits.as_slice() {
        waiting.push(Waiting {
            wait: *wait,
            pc: pc_of(threads.regs(wait.thread)),
        });
    }
    waiting
}

fn is_retake(reason: Reason) -> bool
    ensures { result ≡ is_retake reason }
{
    matches!(reason, Reason::Retake(_, _))
}

/// How the answers at the end of a wait are told.
fn answers_after(reason: Reason) -> Answers
    ensures { result ≡ answers_after reason }
{
    match reason {
        Reason::Join(_) => Answers::AndWord,
        _ => Answers::One,
    }
}

/// Whether a thread waits as it did for this reason, where this is its wait now.
fn still_waits(reason: Reason, now: Option<Wait>) -> bool
    ensures { result ≡ still_waits reason now }
{
    match now {
        None => false,
        Some(wait) => !is_retake(wait.reason) || is_retake(reason),
    }
}

/// The line of a wait that is over.
#[tactic(auto, using(crate::proofs::AppendLemmas::appends_both))]
fn write_ended<W: Write>(out: &mut W, place: Place, after: &Tables, waiting: &Waiting) -> Result<()>
    ensures { OnOk result
        (Appends (W.contents out.old) (W.contents out.new)
        (ended_line place after.now waiting.now)) }
{
    let wait = waiting.wait;
    write_thread(out, place, wait.thread)?;
    write_reason(out, wait.reason)?;
    out.write_all(b" is over")?;
    let answers = answers_after(wait.reason);
    write_came(out, wait.thread, waiting.pc, answers, after)?;
    out.write_all(b"\n")
}

/// Whether a thread waits as it did.
fn is_waiting(after: &Tables, wait: &Wait) -> bool
    ensures { result
        ≡ still_waits wait.now.reason (find (is_of wait.now.thread) after.now.threads.waits) }
{
    still_waits(wait.reason, after.threads.wait_of(wait.thread))
}

/// The line of a wait, if it is over.
#[tactic(auto, using(crate::proofs::AppendLemmas::appends_none))]
fn write_over<W: Write>(out: &mut W, place: Place, after: &Tables, waiting: &Waiting) -> Result<()>
    ensures { OnOk result
        (Appends (W.contents out.old) (W.contents out.new)
        (over_line place after.now waiting.now)) }
{
    if is_waiting(after, &waiting.wait) {
        return Ok(());
    }
    write_ended(out, place, after, waiting)
}

/// What is looked at before a step of the hart.
pub(crate) fn look(machine: &Machine, hart: u8) -> Before
    ensures caller { result.caller
        ≡ caller_of (hart_of machine.now.state.tables hart) machine.now.state }
    ensures waiting { result.waiting.items ≡ waiting_of machine.now.state.tables.threads }
{
    Before {
        caller: next_caller(machine, hart),
        waiting: waits_now(&machine.tables().threads),
    }
}

/// The lines of a step that was made.
#[tactic(auto, using(crate::proofs::AppendLemmas::appends_both))]
pub(crate) fn write_between<W: Write>(
    out: &mut W,
    place: Place,
    before: &Before,
    after: &Tables,
) -> Result<()>
    ensures { OnOk result
        (Appends (W.contents out.old) (W.contents out.new)
        (lines_between place before.now.caller before.now.waiting.items after.now)) }
{
    write_call_line(out, place, &before.caller, after)?;
    write_overs(out, place, before.waiting.as_slice(), after)
}

/// The fault of a thread, at a pc, with its cause.
#[tactic(auto, using(crate::proofs::AppendLemmas::appends_both))]
fn write_cause<W: Write>(out: &mut W, thread: ThreadId, pc: u32, cause: Cause) -> Result<()>
    ensures { OnOk result
        (Appends (W.contents out.old) (W.contents out.new)
        (status_text (Faulted thread pc cause))) }
{
    write_counted(out, b"fault ", u64::from(thread))?;
    out.write_all(b" ")?;
    write_hex(out, pc)?;
    out.write_all(b" ")?;
    out.write_all(cause.name().as_bytes())
}

/// The line of a fault that ended the program.
#[tactic(auto, using(crate::proofs::AppendLemmas::appends_both))]
fn write_fault_line<W: Write>(
    out: &mut W,
    place: Place,
    thread: ThreadId,
    pc: u32,
    cause: Cause,
) -> Result<()>
    ensures { OnOk result
        (Appends (W.contents out.old) (W.contents out.new)
        (fault_line place (Faulted thread pc cause))) }
{
    write_place(out, place)?;
    write_cause(out, thread, pc, cause)?;
    out.write_all(b"\n")
}

/// The line of a fault that ended the program, if one did.
#[tactic(auto, using(crate::proofs::AppendLemmas::appends_none))]
pub(crate) fn write_fault<W: Write>(out: &mut W, place: Place, status: Status) -> Result<()>
    ensures { OnOk result
        (Appends (W.contents out.old) (W.contents out.new) (fault_line place status)) }
{
    match status {
        Status::Faulted(thread, pc, cause) => write_fault_line(out, place, thread, pc, cause),
        Status::Running | Status::Exited(_) => Ok(()),
    }
}

/// The lines of those waits that are over.
#[tactic(auto, using(crate::proofs::AppendLemmas::appends_none, crate::proofs::AppendLemmas::appends_all))]
pub(crate) fn write_overs<W: Write>(
    out: &mut W,
    place: Place,
    before: &[Waiting],
    after: &Tables,
) -> Result<()>
    ensures { OnOk result
        (Appends (W.contents out.old) (W.contents out.new)
        (over_lines place before.now after.now)) }
{
    for waiting in before {
        write_over(out, place, after, waiting)?;
    }
    Ok(())
}

//! What is noted of events, step by step.
ghost use Rattle.std.specs.Prelude.{◌≡◌, ◌≤◌, ◌-◌, ◌%◌, [], None};
ghost use Rattle.ckrt_events.specs.Bytes.{IsInRange};
ghost use Rattle.ckrt_events.specs.declared.event.Event.TheVariants.{Run};
ghost use Rattle.ckrt_machine.specs.Events.{step, refusal_of};
ghost use Rattle.ckrt_machine.specs.Runs.{run_on, stop_of, with_byte};
ghost use Rattle.ckrt_machine.specs.Steps.{hart_of, hart_step};
ghost use Rattle.ckrt_look_calls.specs.Events.{state_behind};
ghost use Rattle.ckrt_look_calls.specs.Lines.{MayStep, put_before};
ghost use Rattle.ckrt_look_profile.specs.Counts.{behind_all};
ghost use Rattle.ckrt_look_profile.specs.Steps.{awaited_of, looks, looks_at, met, met_up_to, of_event, of_rest, of_run, of_step, step_by, turn_at, word_turn};

use crate::counts::{Counts, Note, Step};
use crate::leaving::AtLeaving;
use crate::turn::{Turn, turn_of};
use crate::waits::Awaited;
use ckrt_calls::Tables;
use ckrt_events::Event;
use ckrt_look_calls::{advance, is_stopped};
use ckrt_look_recording::{go_quietly_to, is_quiet};
use ckrt_machine::Machine;
use ckrt_memory::Memory;
use ckrt_rv32i::{Bus, Size};
use ckrt_thread::{Reason, Wait};

/// What is waited for.
fn awaited_of(reason: Reason) -> Awaited
    ensures { result ≡ awaited_of reason }
{
    match reason {
        Reason::Input => Awaited::Input,
        Reason::Sleep => Awaited::Sleep,
        Reason::Join(thread) => Awaited::Join(thread),
        Reason::Lock(mutex) => Awaited::Mutex(mutex),
        Reason::Retake(mutex, _) => Awaited::Mutex(mutex),
        Reason::Condition(condition, _) => Awaited::Condition(condition),
        Reason::Barrier(barrier) => Awaited::Barrier(barrier),
        Reason::Read(lock) => Awaited::Read(lock),
        Reason::Write(lock) => Awaited::Write(lock),
    }
}

/// These wait.
fn count_waits(waits: &[Wait], counts: &mut Counts)
    ensures { counts.new ≡ behind_all (looks waits.now) counts.old }
{
    for wait in waits {
        counts.note(&Note::Wait(wait.thread, awaited_of(wait.reason)));
    }
    counts.note(&Note::Looked);
}

/// A look at all who wait.
fn look(tables: &Tables, counts: &mut Counts)
    ensures { counts.new ≡ behind_all (looks tables.now.threads.waits) counts.old }
{
    let waits = tables.threads.waits();
    count_waits(waits.as_slice(), counts);
}

/// How a thread goes on from an instruction.
fn word_turn(memory: &Memory, pc: u32) -> Turn
    requires { pc % 4 ≡ 0 }
    ensures { result ≡ word_turn memory.now.bytes pc }
{
    match memory.load(pc, Size::Word) {
        Some(word) => turn_of(word),
        None => Turn::Onward,
    }
}

/// How a thread goes on from its next step.
fn turn_at(is_quiet: bool, memory: &Memory, pc: u32) -> Turn
    requires { pc % 4 ≡ 0 }
    ensures { result ≡ turn_at is_quiet memory.now.bytes pc }
{
    if is_quiet {
        word_turn(memory, pc)
    } else {
        Turn::Runtime(pc.wrapping_add(4))
    }
}

/// A step of a hart without a thread.
const IDLE: Step = Step {
    thread: 0,
    pc: 0,
    turn: Turn::Onward,
};

/// The next step of a hart.
fn next_step(machine: &Machine, hart: u8, is_quiet: bool) -> Step
    ensures { result
        ≡ step_by (hart_of machine.now.state.tables hart) is_quiet machine.now.state }
{
    let threads = &machine.tables().threads;
    let Some(thread) = threads.on_hart(usize::from(hart)) else {
        return IDLE;
    };
    let pc = threads.live(thread).regs.pc();
    let turn = turn_at(is_quiet, machine.memory(), pc);
    Step { thread, pc, turn }
}

/// A step of a run of the thread on a hart: the first, or a further one.
fn count_step(machine: &mut Machine, hart: u8, is_first: bool, counts: &mut Counts)
    requires { MayStep is_first hart machine.old }
    ensures state { machine.new.state ≡ (hart_step hart machine.old.state).state }
    ensures output { machine.new.output
        ≡ with_byte (hart_step hart machine.old.state).put (put_before is_first machine.old) }
    ensures counted { counts.new ≡ behind_all (of_step hart machine.old.state) counts.old }
{
    let is_plain = is_quiet(machine, hart);
    counts.note(&Note::Step(next_step(machine, hart, is_plain)));
    if is_plain {
        advance(machine, hart, is_first);
        return;
    }
    look(machine.tables(), counts);
    advance(machine, hart, is_first);
}

/// Steps of a run that goes on, in a row, in one function: up to one by which the thread leaves it, that one included, and at most so
/// many. The answer is how many were made.
fn count_piece(machine: &mut Machine, hart: u8, limit: u32, counts: &mut Counts) -> u32
    requires some { 1 ≤ limit }
    requires going { stop_of hart machine.old.state.tables machine.old.output ≡ None }
    ensures some { 1 ≤ result }
    ensures within { result ≤ limit }
    ensures state { state_behind (limit - result) hart machine.new.state machine.new.output
        ≡ state_behind limit hart machine.old.state machine.old.output }
    ensures counted { behind_all
        (of_rest (limit - result) hart machine.new.state machine.new.output) counts.new
        ≡ behind_all (of_rest limit hart machine.old.state machine.old.output) counts.old }
{
    let first = next_step(machine, hart, true);
    let made = go_quietly_to(machine, hart, limit, &AtLeaving);
    if made == limit || is_stopped(machine, hart) {
        counts.onward(first.thread, first.pc, made);
        return made;
    }
    if is_quiet(machine, hart) {
        let last = next_step(machine, hart, true);
        counts.leaving(first.thread, first.pc, made, last.turn);
        advance(machine, hart, false);
        return made + 1;
    }
    counts.onward(first.thread, first.pc, made);
    count_step(machine, hart, false, counts);
    made + 1
}

/// So many steps more at most of a run of the thread on a hart.
fn count_steps(machine: &mut Machine, hart: u8, more: u32, counts: &mut Counts)
    ensures state { machine.new.state
        ≡ state_behind more hart machine.old.state machine.old.output }
    ensures counted { counts.new
        ≡ behind_all (of_rest more hart machine.old.state machine.old.output) counts.old }
{
    let mut made = 0;
    while made < more {
        if is_stopped(machine, hart) {
            return;
        }
        made += count_piece(machine, hart, more - made, counts);
    }
}

/// A run of the thread on a hart, of `limit` steps at most.
fn count_run(machine: &mut Machine, hart: u8, limit: u32, counts: &mut Counts)
    requires hart { hart ≤ 7 }
    requires some { 1 ≤ limit }
    requires accepted { refusal_of 0 (Run hart 1) machine.old.state ≡ None }
    ensures state { machine.new.state ≡ (run_on limit hart machine.old.state []).state }
    ensures counted { counts.new ≡ behind_all (of_run limit hart machine.old.state []) counts.old }
{
    count_step(machine, hart, true, counts);
    count_steps(machine, hart, limit - 1, counts);
}

/// An event that is no run.
fn count_other(machine: &mut Machine, event: &Event, counts: &mut Counts)
    requires in_range { IsInRange event.now }
    requires accepted { refusal_of 0 event.now machine.old.state ≡ None }
    ensures state { machine.new.state ≡ (step event.now machine.old.state).state }
    ensures counted { counts.new ≡ behind_all (looks_at machine.old.state) counts.old }
{
    look(machine.tables(), counts);
    machine.step(event);
}

/// Applies an event that would be accepted if no output were held, as `Machine::step` does, and counts its steps and the waits before
/// them. It takes no memory.
pub fn count_event(machine: &mut Machine, event: &Event, counts: &mut Counts)
    requires in_range { IsInRange event.now }
    requires accepted { refusal_of 0 event.now machine.old.state ≡ None }
    ensures state { machine.new.state ≡ (step event.now machine.old.state).state }
    ensures counted { counts.new ≡ behind_all (of_event event.now machine.old.state) counts.old }
{
    match event {
        Event::Run(hart, limit) => count_run(machine, *hart, u32::from(*limit), counts),
        Event::RunLong(hart, limit) => count_run(machine, *hart, *limit, counts),
        _ => count_other(machine, event, counts),
    }
}

/// The last look.
pub(crate) fn look_last(machine: &Machine, counts: &mut Counts)
    ensures { counts.new ≡ behind_all (looks_at machine.now.state) counts.old }
{
    look(machine.tables(), counts);
}

/// A thread of this number, if there is one.
fn meet(machine: &Machine, thread: u8, counts: &mut Counts)
    ensures { counts.new ≡ behind_all (met thread machine.now.state) counts.old }
{
    if let Some(regs) = machine.tables().threads.regs(thread) {
        counts.note(&Note::Met(thread, regs.pc()));
    }
}

/// The greatest number of a thread.
const LAST: u8 = 64;

/// The threads that there are.
#[tactic(auto, using(crate::proofs::BehindLemmas::met_next))]
pub(crate) fn meet_all(machine: &Machine, counts: &mut Counts)
    ensures { counts.new ≡ behind_all (met_up_to 64 machine.now.state) counts.old }
{
    for thread in 0..LAST {
        meet(machine, thread + 1, counts);
    }
}

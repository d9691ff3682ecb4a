//! Tables of steps: what happens to a program, made by hand, and what it is then.

use crate::program::Program;
use ckrt_thread::{CallResult, Object, ThreadId};
use std::process::Abort;

/// A call that is made, another event, or a look at what came of them.
#[derive(Clone, Copy)]
pub enum Step {
    /// The thread makes the call of this number with these arguments, and it answers this.
    Call(ThreadId, u32, [u32; 3], CallResult),
    /// The thread makes the call on that many objects, four bytes from one to the next; it answers 0.
    CallEach(u16, ThreadId, u32, [u32; 3]),
    /// Some ticks pass, and that many waits end.
    Tick(u32, u32),
    /// These bytes of input come.
    Input(&'static [u8]),
    /// No more input comes.
    EndOfInput,
    /// The thread, which is ready and unwinds, comes to the unwinding gate.
    Gate(ThreadId),
    /// The thread, which is ready and asynchronous, is about to run an instruction.
    Instruction(ThreadId),
    /// The thread is ready, with this value in x10.
    Ready(ThreadId, u32),
    /// The thread is ready, with this value in x11.
    Second(ThreadId, u32),
    /// The thread is ready at the routine, with its argument, and the routine returns to this address.
    Routine(ThreadId, u32, u32, u32),
    /// The thread is not ready.
    Waits(ThreadId),
    /// That many threads wait for the object.
    Waiters(Object, usize),
    /// The thread has a request on which it has not acted.
    Requested(ThreadId),
    /// The mutex at this address is the thread's.
    Owner(u32, ThreadId),
    /// Who writes under the read-write lock at this address.
    Writer(u32, Option<ThreadId>),
    /// The thread has that many read locks of the lock at this address.
    Reads(u32, ThreadId, u16),
}

/// The thread is ready at the routine, with its argument, and the routine returns to this address.
fn expect_routine<R: Abort>(
    rt: &R,
    program: &Program,
    thread: ThreadId,
    routine: u32,
    argument: u32,
    back: u32,
) {
    program.stands_at(rt, thread, routine);
    program.has(rt, thread, 10, argument);
    program.has(rt, thread, 1, back);
}

/// The step that only looks.
fn look<R: Abort>(rt: &R, program: &Program, step: Step) {
    match step {
        Step::Ready(thread, value) => program.has(rt, thread, 10, value),
        Step::Second(thread, value) => program.has(rt, thread, 11, value),
        Step::Routine(thread, routine, argument, back) => {
            expect_routine(rt, program, thread, routine, argument, back)
        }
        Step::Waits(thread) => program.waits(rt, thread),
        Step::Waiters(object, count) => program.has_waiters(rt, object, count),
        Step::Requested(thread) => program.is_requested(rt, u32::from(thread)),
        Step::Owner(address, thread) => program.has_mutex(rt, address, thread),
        Step::Writer(address, writer) => program.has_writer(rt, address, writer),
        Step::Reads(address, thread, count) => program.has_read_locks(rt, address, thread, count),
        _ => panic!(rt; "the step is an event"),
    }
}

/// Takes the step.
fn take<R: Abort>(rt: &R, program: &mut Program, step: Step) {
    match step {
        Step::Call(thread, number, arguments, want) => {
            program.answers(rt, thread, number, arguments, want)
        }
        Step::CallEach(count, thread, number, arguments) => {
            program.answers_each(rt, count, thread, number, arguments)
        }
        Step::Tick(ticks, ended) => program.ends_by_tick(rt, ticks, ended),
        Step::Input(bytes) => program.reads(rt, bytes),
        Step::EndOfInput => program.ends_input(),
        Step::Gate(thread) => program.comes_to_the_gate(rt, thread),
        Step::Instruction(thread) => program.comes_to_an_instruction(rt, thread),
        _ => look(rt, program, step),
    }
}

/// Takes these steps with a program of 16 pages and 1 hart, with threads 1 to `last`.
pub fn play<R: Abort + AllocGlobal>(rt: &R, last: u32, steps: &[Step]) {
    let mut program = Program::new(rt, last);
    for step in steps {
        program.begin_step();
        take(rt, &mut program, *step);
    }
}

//! The tables of a program, on which tests make the calls of its guest by hand.
ghost use Rattle.ckrt_calls.specs.WellFormed.{IsWellFormed};

use crate::calls::{call_as, is_running, tables_with, tick_by};
use crate::expect::expect_eq_at;
use ckrt_calls::{INPUT_LIMIT, Tables, act_on_request, close_input, next_handler, take_input};
use ckrt_rv32i::Regs;
use ckrt_thread::{CallResult, Object, Thread, ThreadId};
use std::marker::Model;
use std::process::Abort;

/// A program whose tables are well formed. Contracts see nothing else of it: each step of a test is one call of what
/// stands below, which a proof passes over.
#[derive(Drop)]
pub struct Program {
    tables: Tables,
    /// How many steps have begun.
    step: u32,
}

impl Model for Program {
    ghost Value = { Unit {0} };

    ghost view = { λ _. tt };

    ghost invariant = { λ p. IsWellFormed p.tables };
}

impl Program {
    /// A program of 16 pages and 1 hart, with threads 1 to `last`.
    pub fn new<R: Abort + AllocGlobal>(rt: &R, last: u32) -> Program {
        let tables = tables_with(rt, last);
        Program { tables, step: 0 }
    }

    /// The next step of a test begins, which is named where it fails.
    pub fn begin_step(&mut self) {
        self.step = self.step.wrapping_add(1);
    }

    /// The registers of the thread, which is ready.
    fn regs<R: Abort>(&self, rt: &R, thread: ThreadId) -> Regs {
        assert!(rt; self.tables.threads.is_ready(thread));
        self.tables
            .threads
            .regs(thread)
            .expect(rt, "the thread is ready")
    }

    /// The thread makes the call of this number with these arguments, and it answers this.
    pub fn answers<R: Abort>(
        &mut self,
        rt: &R,
        thread: ThreadId,
        number: u32,
        arguments: [u32; 3],
        want: CallResult,
    ) {
        let [first, second, third] = arguments;
        let result = call_as(
            rt,
            &mut self.tables,
            thread,
            number,
            [first, second, third, 0],
        );
        expect_eq_at(rt, self.step, result, want);
    }

    /// The thread makes the call on that many objects, four bytes from one to the next; it answers 0.
    pub fn answers_each<R: Abort>(
        &mut self,
        rt: &R,
        count: u16,
        thread: ThreadId,
        number: u32,
        arguments: [u32; 3],
    ) {
        let [first, second, third] = arguments;
        for place in 0..u32::from(count) {
            let address = first.wrapping_add(4 * place);
            let want = CallResult::Done(0);
            self.answers(rt, thread, number, [address, second, third], want);
        }
    }

    /// Some ticks pass, and that many waits end.
    pub fn ends_by_tick<R: Abort>(&mut self, rt: &R, ticks: u32, want: u32) {
        let ended = tick_by(rt, &mut self.tables, ticks);
        expect_eq_at(rt, self.step, ended, want);
    }

    /// These bytes of input come.
    pub fn reads<R: Abort>(&mut self, rt: &R, bytes: &[u8]) {
        assert!(rt; bytes.len() <= 64);
        assert!(rt; self.tables.input.len() + bytes.len() <= INPUT_LIMIT);
        take_input(&mut self.tables, bytes);
    }

    /// No more input comes.
    pub fn ends_input(&mut self) {
        close_input(&mut self.tables);
    }

    /// The thread, which is ready and unwinds, comes to the unwinding gate.
    pub fn comes_to_the_gate<R: Abort>(&mut self, rt: &R, thread: ThreadId) {
        assert!(rt; self.tables.threads.is_ready(thread));
        assert!(rt; is_running(&self.tables));
        next_handler(&mut self.tables, thread);
    }

    /// The thread, which is ready and asynchronous, is about to run an instruction.
    pub fn comes_to_an_instruction<R: Abort>(&mut self, rt: &R, thread: ThreadId) {
        assert!(rt; self.tables.threads.is_ready(thread));
        assert!(rt; is_running(&self.tables));
        act_on_request(&mut self.tables, thread);
    }

    /// The thread is ready, and this register has this value.
    pub fn has<R: Abort>(&self, rt: &R, thread: ThreadId, register: u8, value: u32) {
        assert!(rt; register < 32);
        expect_eq_at(rt, self.step, self.regs(rt, thread).get(register), value);
    }

    /// The thread is ready at this address.
    pub fn stands_at<R: Abort>(&self, rt: &R, thread: ThreadId, address: u32) {
        expect_eq_at(rt, self.step, self.regs(rt, thread).pc(), address);
    }

    /// The thread is not ready.
    pub fn waits<R: Abort>(&self, rt: &R, thread: ThreadId) {
        assert!(rt; !self.tables.threads.is_ready(thread));
    }

    /// That many threads wait for the object.
    pub fn has_waiters<R: Abort>(&self, rt: &R, object: Object, count: usize) {
        expect_eq_at(
            rt,
            self.step,
            self.tables.threads.waiter_count(object),
            count,
        );
    }

    /// The thread has a request on which it has not acted.
    pub fn is_requested<R: Abort>(&self, rt: &R, thread: u32) {
        match self.tables.threads.thread(thread) {
            Some(Thread::Live(live)) => assert!(rt; live.cancellation.is_requested),
            _ => panic!(rt; "the thread has ended"),
        }
    }

    /// The thread has the mutex at this address.
    pub fn has_mutex<R: Abort>(&self, rt: &R, address: u32, owner: ThreadId) {
        expect_eq_at(
            rt,
            self.step,
            self.tables.mutexes.mutex(address).owner,
            Some(owner),
        );
    }

    /// Who writes under the lock at this address.
    pub fn has_writer<R: Abort>(&self, rt: &R, address: u32, writer: Option<ThreadId>) {
        expect_eq_at(
            rt,
            self.step,
            self.tables.rwlocks.lock(address).writer,
            writer,
        );
    }

    /// The thread has that many read locks of the lock at this address.
    pub fn has_read_locks<R: Abort>(&self, rt: &R, address: u32, thread: ThreadId, count: u16) {
        assert!(rt; thread <= 64);
        expect_eq_at(
            rt,
            self.step,
            self.tables.rwlocks.lock(address).read_count(thread),
            count,
        );
    }
}

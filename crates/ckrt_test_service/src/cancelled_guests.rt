//! Guests whose threads are cancelled.
ghost use Rattle.ckrt_events.specs.Bytes.{IsInRange};

use crate::expect::{expect_eq, image_of};
use crate::image_service::expect_replies;
use crate::schedules::{NOTHING_ELSE, Schedule, expect_console};
use ckrt_calls::Status;
use ckrt_events::Event;
use ckrt_machine::{Answer, Machine, RunEnd};
use std::process::Abort;

/// Becomes asynchronous, cancels itself, and would loop for ever.
const CANCELS_ITSELF: [u32; 7] = [
    0x00100513, // addi x10, x0, 1
    0x03f00893, // addi x17, x0, 63
    0x00000073, // ecall
    0x00100513, // addi x10, x0, 1
    0x03c00893, // addi x17, x0, 60
    0x00000073, // ecall
    0x0000006f, // jal x0, 0
];

/// The same, but asks for its id instead, and stays deferred.
const STAYS_DEFERRED: [u32; 7] = [
    0x00100513, // addi x10, x0, 1
    0x00e00893, // addi x17, x0, 14
    0x00000073, // ecall
    0x00100513, // addi x10, x0, 1
    0x03c00893, // addi x17, x0, 60
    0x00000073, // ecall
    0x0000006f, // jal x0, 0
];

/// The first thread begins a thread, cancels it a little later and joins it, seven times. Each of them pushes a handler
/// that puts a letter, locks a mutex, and pushes a handler that unlocks it and puts a u. Then it waits: for the end of
/// the first thread (J, twice), for a byte (G), for a moment that doesn't come (S), or at a condition (C); or it makes a
/// call that is a cancellation point (L), or loops with asynchronous cancelability (A). The first thread has the mutex
/// while it cancels C, which waits at its condition by then or for the mutex, and L, which waits for the mutex: it puts
/// > and unlocks. It puts 1 where the joined thread's value is that of a cancelled one.
const CANCELLED: [u32; 138] = [
    0x00001537, // lui x10, 1
    0x12c50513, // addi x10, x10, join_case
    0x0a0002ef, // jal x5, create
    0x0c4002ef, // jal x5, cancel
    0x0d0002ef, // jal x5, finish
    0x00001537, // lui x10, 1
    0x12c50513, // addi x10, x10, join_case
    0x08c002ef, // jal x5, create
    0x0b0002ef, // jal x5, cancel
    0x0bc002ef, // jal x5, finish
    0x00001537, // lui x10, 1
    0x14450513, // addi x10, x10, getc_case
    0x078002ef, // jal x5, create
    0x09c002ef, // jal x5, cancel
    0x0a8002ef, // jal x5, finish
    0x00001537, // lui x10, 1
    0x15850513, // addi x10, x10, sleep_case
    0x064002ef, // jal x5, create
    0x088002ef, // jal x5, cancel
    0x094002ef, // jal x5, finish
    0x00001537, // lui x10, 1
    0x17450513, // addi x10, x10, wait_case
    0x050002ef, // jal x5, create
    0x0a4002ef, // jal x5, take
    0x070002ef, // jal x5, cancel
    0x0ac002ef, // jal x5, give
    0x078002ef, // jal x5, finish
    0x094002ef, // jal x5, take
    0x00001537, // lui x10, 1
    0x19050513, // addi x10, x10, lock_case
    0x030002ef, // jal x5, create
    0x054002ef, // jal x5, cancel
    0x090002ef, // jal x5, give
    0x05c002ef, // jal x5, finish
    0x00001537, // lui x10, 1
    0x1a450513, // addi x10, x10, loop_case
    0x018002ef, // jal x5, create
    0x03c002ef, // jal x5, cancel
    0x048002ef, // jal x5, finish
    0x00000513, // addi x10, x0, 0
    0x00100893, // addi x17, x0, 1
    0x00000073, // ecall
    // create:
    0x00000593, // addi x11, x0, 0
    0x00000613, // addi x12, x0, 0
    0x00000693, // addi x13, x0, 0
    0x00a00893, // addi x17, x0, 10
    0x00000073, // ecall
    0x00058313, // addi x6, x11, 0
    0x01400393, // addi x7, x0, 20
    // delay:
    0xfff38393, // addi x7, x7, -1
    0xfe039ee3, // bne x7, x0, delay
    0x00028067, // jalr x0, 0(x5)
    // cancel:
    0x00030513, // addi x10, x6, 0
    0x03c00893, // addi x17, x0, 60
    0x00000073, // ecall
    0x00028067, // jalr x0, 0(x5)
    // finish:
    0x00030513, // addi x10, x6, 0
    0x00b00893, // addi x17, x0, 11
    0x00000073, // ecall
    0x40b50533, // sub x10, x10, x11
    0x03050513, // addi x10, x10, 48
    0x00200893, // addi x17, x0, 2
    0x00000073, // ecall
    0x00028067, // jalr x0, 0(x5)
    // take:
    0x00005537, // lui x10, 5
    0x01600893, // addi x17, x0, 22
    0x00000073, // ecall
    0x00028067, // jalr x0, 0(x5)
    // give:
    0x03e00513, // addi x10, x0, 62
    0x00200893, // addi x17, x0, 2
    0x00000073, // ecall
    0x00005537, // lui x10, 5
    0x01900893, // addi x17, x0, 25
    0x00000073, // ecall
    0x00028067, // jalr x0, 0(x5)
    // join_case:
    0x04a00493, // addi x9, x0, 74
    0x09c002ef, // jal x5, ready
    0x00100513, // addi x10, x0, 1
    0x00b00893, // addi x17, x0, 11
    0x00000073, // ecall
    0x07c0006f, // jal x0, fail
    // getc_case:
    0x04700493, // addi x9, x0, 71
    0x084002ef, // jal x5, ready
    0x00300893, // addi x17, x0, 3
    0x00000073, // ecall
    0x0680006f, // jal x0, fail
    // sleep_case:
    0x05300493, // addi x9, x0, 83
    0x070002ef, // jal x5, ready
    0x00000513, // addi x10, x0, 0
    0x00100593, // addi x11, x0, 1
    0x00500893, // addi x17, x0, 5
    0x00000073, // ecall
    0x04c0006f, // jal x0, fail
    // wait_case:
    0x04300493, // addi x9, x0, 67
    0x054002ef, // jal x5, ready
    0x00006537, // lui x10, 6
    0x000055b7, // lui x11, 5
    0x02000893, // addi x17, x0, 32
    0x00000073, // ecall
    0x0300006f, // jal x0, fail
    // lock_case:
    0x04c00493, // addi x9, x0, 76
    0x038002ef, // jal x5, ready
    0x03d00893, // addi x17, x0, 61
    0x00000073, // ecall
    0x01c0006f, // jal x0, fail
    // loop_case:
    0x04100493, // addi x9, x0, 65
    0x024002ef, // jal x5, ready
    0x00100513, // addi x10, x0, 1
    0x03f00893, // addi x17, x0, 63
    0x00000073, // ecall
    0x0000006f, // jal x0, 0
    // fail:
    0x02100513, // addi x10, x0, 33
    0x00200893, // addi x17, x0, 2
    0x00000073, // ecall
    0x00008067, // jalr x0, 0(x1)
    // ready:
    0x00001537, // lui x10, 1
    0x20450513, // addi x10, x10, say
    0x00048593, // addi x11, x9, 0
    0x04000893, // addi x17, x0, 64
    0x00000073, // ecall
    0x00005537, // lui x10, 5
    0x01600893, // addi x17, x0, 22
    0x00000073, // ecall
    0x00001537, // lui x10, 1
    0x21050513, // addi x10, x10, release
    0x000055b7, // lui x11, 5
    0x04000893, // addi x17, x0, 64
    0x00000073, // ecall
    0x00028067, // jalr x0, 0(x5)
    // say:
    0x00200893, // addi x17, x0, 2
    0x00000073, // ecall
    0x00008067, // jalr x0, 0(x1)
    // release:
    0x01900893, // addi x17, x0, 25
    0x00000073, // ecall
    0x07500513, // addi x10, x0, 117
    0x00200893, // addi x17, x0, 2
    0x00000073, // ecall
    0x00008067, // jalr x0, 0(x1)
];

/// The bytes that it puts: uJ1 uJ1 uG1 uS1 >uC1 >uL1 uA1.
const PUT: &[u8] = b"754a31754a317547317553313e7543313e754c31754131";

/// Harts, steps in a row, and rounds. Where many steps come in a row a thread is cancelled before it begins.
const SCHEDULES: [Schedule; 6] = [
    (1, 3, 1200),
    (1, 50, 150),
    (1, 400, 40),
    (2, 7, 300),
    (8, 4, 300),
    (8, 1, 900),
];

#[test]
fn cancelled_in_each_wait(rt: HostRuntime) {
    expect_console(&rt, &CANCELLED, &SCHEDULES, NOTHING_ELSE, PUT);
}

#[test]
fn asynchronous_thread_acts_before_its_next_instruction(rt: HostRuntime) {
    expect_replies(
        &rt,
        &CANCELS_ITSELF,
        b"place 0 1\nrun 0 99\n",
        b"ok 1 placed\nok 2 ran 7 end\n",
    );
}

#[test]
fn deferred_thread_goes_on(rt: HostRuntime) {
    expect_replies(
        &rt,
        &STAYS_DEFERRED,
        b"place 0 1\nrun 0 99\n",
        b"ok 1 placed\nok 2 ran 99 on\n",
    );
}

/// The event's answer, if it is accepted.
fn step_if_accepted(machine: &mut Machine, event: &Event) -> Option<Answer>
    requires { IsInRange event.now }
{
    match machine.accept(0, event) {
        Ok(()) => Some(machine.step(event)),
        Err(_) => None,
    }
}

/// A machine of 16 pages and one hart, with the first thread on it.
fn placed<R: Abort + AllocGlobal>(rt: &R, words: &[u32]) -> Machine {
    let image = image_of(rt, words);
    let mut machine = Machine::new(rt.alloc(), 16, 1, image.as_slice()).expect(rt, "a machine");
    step_if_accepted(&mut machine, &Event::Place(0, 1));
    machine
}

/// A run of that many steps at most gets this answer, and leaves the program so.
fn expect_run<R: Abort>(rt: &R, machine: &mut Machine, steps: u16, answer: Answer, status: Status) {
    assert!(rt; steps > 0);
    let answered = step_if_accepted(machine, &Event::Run(0, steps));
    expect_eq(rt, answered, Some(answer));
    expect_eq(rt, machine.status(), status);
}

#[test]
fn last_thread_that_is_cancelled_exits_with_0(rt: HostRuntime) {
    let mut machine = placed(&rt, &CANCELS_ITSELF);
    let end = Answer::Ran(7, RunEnd::End);
    expect_run(&rt, &mut machine, 99, end, Status::Exited(0));
}

#[test]
fn each_run_looks_for_the_request(rt: HostRuntime) {
    let mut machine = placed(&rt, &CANCELS_ITSELF);
    let on = Answer::Ran(6, RunEnd::On);
    expect_run(&rt, &mut machine, 6, on, Status::Running);
    let end = Answer::Ran(1, RunEnd::End);
    expect_run(&rt, &mut machine, 1, end, Status::Exited(0));
}

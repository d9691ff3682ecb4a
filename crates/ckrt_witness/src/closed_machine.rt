//! A closed witness of the promise that the machine meets its tables. What stops a test meets any clause, so it shows its witness by
//! coming to its end.
ghost use Rattle.std.specs.Prelude.{◌≡◌};
ghost use Rattle.ckrt_machine.specs.Events.{fresh};
ghost use Rattle.ckrt_witness.specs.Machine.{MachineWitness};

use crate::machine::{Places, apply_each_kind};
use arrayvec::ArrayVec;
use ckrt_events::Event;
use ckrt_machine::Machine;
use std::process::Abort;

/// A guest that locks a mutex and a read-write lock, puts a byte, makes four threads, and joins the first. That one waits for the mutex,
/// the second for the read-write lock, and the others go round for ever.
pub(crate) const WAITERS: &[u8] = &[
    0x37, 0x55, 0x00, 0x00, // lui x10, 5
    0x93, 0x08, 0x60, 0x01, // addi x17, x0, 22
    0x73, 0x00, 0x00, 0x00, // ecall
    0x37, 0x75, 0x00, 0x00, // lui x10, 7
    0x93, 0x08, 0x60, 0x03, // addi x17, x0, 54
    0x73, 0x00, 0x00, 0x00, // ecall
    0x13, 0x05, 0x10, 0x04, // addi x10, x0, 65
    0x93, 0x08, 0x20, 0x00, // addi x17, x0, 2
    0x73, 0x00, 0x00, 0x00, // ecall
    0x13, 0x04, 0x40, 0x00, // addi x8, x0, 4
    // create:
    0x37, 0x15, 0x00, 0x00, // lui x10, 1
    0x13, 0x05, 0x85, 0x05, // addi x10, x10, thread
    0x93, 0x05, 0x04, 0x00, // addi x11, x8, 0
    0x13, 0x06, 0x00, 0x00, // addi x12, x0, 0
    0x93, 0x06, 0x00, 0x00, // addi x13, x0, 0
    0x93, 0x08, 0xa0, 0x00, // addi x17, x0, 10
    0x73, 0x00, 0x00, 0x00, // ecall
    0x13, 0x04, 0xf4, 0xff, // addi x8, x8, -1
    0xe3, 0x10, 0x04, 0xfe, // bne x8, x0, create
    0x13, 0x05, 0x20, 0x00, // addi x10, x0, 2
    0x93, 0x08, 0xb0, 0x00, // addi x17, x0, 11
    0x73, 0x00, 0x00, 0x00, // ecall
    // thread:
    0x93, 0x02, 0x40, 0x00, // addi x5, x0, 4
    0x63, 0x18, 0x55, 0x00, // bne x10, x5, second
    0x37, 0x55, 0x00, 0x00, // lui x10, 5
    0x93, 0x08, 0x60, 0x01, // addi x17, x0, 22
    0x73, 0x00, 0x00, 0x00, // ecall
    // second:
    0x93, 0x02, 0x30, 0x00, // addi x5, x0, 3
    0x63, 0x18, 0x55, 0x00, // bne x10, x5, round
    0x37, 0x75, 0x00, 0x00, // lui x10, 7
    0x93, 0x08, 0x60, 0x03, // addi x17, x0, 54
    0x73, 0x00, 0x00, 0x00, // ecall
    // round:
    0x6f, 0x00, 0x00, 0x00, // jal x0, round
];

/// Where its threads wait, and the hart that goes round.
const PLACES: Places = Places {
    mutex: 0x5000,
    lock: 0x7000,
    joined: 2,
    hart: 0,
};

/// A program on two harts before its first event.
fn new_machine<R: Abort + AllocGlobal>(rt: &R, image: &[u8]) -> Machine
    ensures { result.state ≡ fresh 16 2 image.now }
{
    match Machine::new(rt.alloc(), 16, 2, image) {
        Ok(machine) => machine,
        Err(_) => panic!(rt; "memory for a machine"),
    }
}

/// These events of a program on two harts meet all premises of the promise.
fn machine<R: Abort + AllocGlobal>(rt: &R, image: &[u8], events: &[Event])
    ensures { MachineWitness (fresh 16 2 image.now) events.now }
{
    let mut machine = new_machine(rt, image);
    match apply_each_kind(
        &mut machine,
        events,
        &PLACES,
        &Event::Run(0, 3),
        &Event::Eof,
    ) {
        Some(_) => {}
        None => panic!(rt; "an event is refused, or a thread doesn't wait"),
    }
}

#[test]
fn the_premises_of_the_machine_are_met(rt: HostRuntime) {
    let mut bytes = ArrayVec::new();
    bytes.push(b'a');
    machine(
        &rt,
        WAITERS,
        &[
            Event::Tick(3),
            Event::Input(bytes),
            Event::Eof,
            Event::Place(0, 1),
            Event::Run(0, 200),
            Event::Place(0, 2),
            Event::Run(0, 20),
            Event::Place(0, 3),
            Event::Run(0, 20),
            Event::Place(0, 4),
            Event::RunLong(0, 5),
        ],
    );
}

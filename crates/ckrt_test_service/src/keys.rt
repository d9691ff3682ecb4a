//! Thread-specific data: guests whose destructors run when a thread ends.

use crate::image_service::expect_replies;
use ckrt_test_storage::PUTS_ITS_VALUE;

/// That guest with a destructor that sets the value again.
const SETS_IT_AGAIN: [u32; 15] = [
    0x00001537, 0x02850513, 0x04600893, 0x00000073, 0x00058513, 0x04300593, 0x04800893, 0x00000073,
    0x00d00893, 0x00000073,
    // destructor:
    0x00050593, // addi x11, x10, 0
    0x00000513, // addi x10, x0, 0
    0x04800893, // addi x17, x0, 72
    0x00000073, // ecall
    0x00008067, // jalr x0, 0(x1)
];

/// The same with one that sets it again and puts it.
const SETS_AND_PUTS_IT: [u32; 18] = [
    0x00001537, 0x02850513, 0x04600893, 0x00000073, 0x00058513, 0x04300593, 0x04800893, 0x00000073,
    0x00d00893, 0x00000073,
    // destructor:
    0x00050593, // addi x11, x10, 0
    0x00000513, // addi x10, x0, 0
    0x04800893, // addi x17, x0, 72
    0x00000073, // ecall
    0x00058513, // addi x10, x11, 0
    0x00200893, // addi x17, x0, 2
    0x00000073, // ecall
    0x00008067, // jalr x0, 0(x1)
];

/// The first guest with a call of exit in place of thread_exit, and with a return.
const EXITS: [u32; 13] = [
    0x00001537, 0x02850513, 0x04600893, 0x00000073, 0x00058513, 0x04300593, 0x04800893, 0x00000073,
    0x00100893, // addi x17, x0, 1
    0x00000073, // ecall
    0x00200893, 0x00000073, 0x00008067,
];

const RETURNS: [u32; 13] = [
    0x00001537, 0x02850513, 0x04600893, 0x00000073, 0x00058513, 0x04300593, 0x04800893, 0x00000073,
    0x00008067, // jalr x0, 0(x1)
    0x00000073, 0x00200893, 0x00000073, 0x00008067,
];

const RUN: &[u8] = b"place 0 1\nrun 0 99\ncommit\n";

#[test]
fn a_destructor_gets_the_value(rt: HostRuntime) {
    let want = b"ok 1 placed\nok 2 ran 14 end\nack 2\nout 0 43\n";
    expect_replies(&rt, &PUTS_ITS_VALUE, RUN, want);
}

/// 10 steps, and four times the destructor's 5 and the gate.
#[test]
fn a_destructor_runs_four_times(rt: HostRuntime) {
    let want = b"ok 1 placed\nok 2 ran 34 end\nack 2\n";
    expect_replies(&rt, &SETS_IT_AGAIN, RUN, want);
    let want = b"ok 1 placed\nok 2 ran 46 end\nack 2\nout 0 43434343\n";
    expect_replies(&rt, &SETS_AND_PUTS_IT, RUN, want);
}

/// A process that ends runs no destructor. A return takes its instruction and the gate.
#[test]
fn the_end_of_the_process_runs_none(rt: HostRuntime) {
    let want = b"ok 1 placed\nok 2 ran 10 end\nack 2\n";
    expect_replies(&rt, &EXITS, RUN, want);
    expect_replies(&rt, &RETURNS, RUN, want);
}

//! One guest thread, from lines to replies.

use crate::expect::{copied, expect_eq, expect_eq_at, filled, image_of, push};
use crate::image_service::{expect_replies, push_reply};
use crate::small_disk::SMALL;
use ckrt_main::{Config, ServeFault, serve_image};
use ckrt_memory::{Memory, MemoryError};
use ckrt_test_storage::SIX_WORDS;
use std::process::Abort;

/// Puts its argument for ever.
const PUTS_FOR_EVER: [u32; 3] = [0x00200893, 0x00000073, 0xffdff06f];

#[test]
fn first_run(rt: HostRuntime) {
    expect_replies(
        &rt,
        &SIX_WORDS,
        b"place 0 1\nrun 0 6\ncommit\nquit\n",
        b"ok 1 placed\nok 2 ran 6 end\nack 2\nout 0 41\n",
    );
}

/// Compares 0 with the immediate -1 as unsigned numbers, puts the answer and exits.
const COMPARES: [u32; 6] = [
    0xfff03513, 0x00200893, 0x00000073, 0x00000513, 0x00100893, 0x00000073,
];

#[test]
fn sltiu_compares_the_extended_immediate(rt: HostRuntime) {
    expect_replies(
        &rt,
        &COMPARES,
        b"place 0 1\nrun 0 6\ncommit\n",
        b"ok 1 placed\nok 2 ran 6 end\nack 2\nout 0 01\n",
    );
}

#[test]
fn empty_image_faults(rt: HostRuntime) {
    expect_replies(
        &rt,
        &[],
        b"place 0 1\nrun 0 1\nrun 0 1\n",
        b"ok 1 placed\nok 2 ran 1 end\nno 1 Ended\n",
    );
}

#[test]
fn refusals_in_their_order(rt: HostRuntime) {
    expect_replies(
        &rt,
        &SIX_WORDS,
        b"run 0 5\nplace 3 1\nplace 0 2\nplace 0 1\nplace 0 1\n",
        b"no 5 HartIdle\nno 2 NoSuchHart\nno 3 NoSuchThread\nok 1 placed\nno 4 NotReady\n",
    );
}

/// A run that puts 2,048 bytes, and its reply as event `count`.
fn push_full_run<R: Abort + AllocGlobal>(
    rt: &R,
    lines: &mut Vec<u8>,
    want: &mut Vec<u8>,
    count: u32,
) {
    push(rt, lines, b"run 0 65535\n");
    push_reply(rt, want, count, "ran 2048 on");
}

/// Events 2 to 17: what each run puts leaves less room for the next.
fn push_full_runs<R: Abort + AllocGlobal>(rt: &R, lines: &mut Vec<u8>, want: &mut Vec<u8>) {
    for count in 2..18 {
        push_full_run(rt, lines, want, count);
    }
}

#[test]
fn held_output_fills(rt: HostRuntime) {
    let mut lines = copied(&rt, b"place 0 1\n");
    let mut want = copied(&rt, b"ok 1 placed\n");
    push_full_runs(&rt, &mut lines, &mut want);
    push(&rt, &mut lines, b"run 0 65535\n");
    push(&rt, &mut want, b"no 9 OutputFull\n");
    expect_replies(&rt, &PUTS_FOR_EVER, lines.as_slice(), want.as_slice());
}

/// An image of that many bytes has this fault.
fn expect_image<R: Abort + AllocGlobal>(rt: &R, size: usize, fault: Option<MemoryError>) {
    let image = filled(rt, 0, size);
    let memory = Memory::new(rt.alloc(), 16, image.as_slice());
    expect_eq_at(rt, size, memory.err(), fault);
}

#[test]
fn image_limits(rt: HostRuntime) {
    expect_image(&rt, 61_440, None);
    expect_image(&rt, 61_441, Some(MemoryError::ImageTooLong));
}

/// A service of the image is refused before a byte is read or written.
fn expect_refusal<R: Abort + AllocGlobal>(rt: &R, image: &[u8], config: Config) {
    let mut reader: &[u8] = b"place 0 1\n";
    let mut writer = Vec::new(rt.alloc());
    let done = serve_image(rt.alloc(), image, config, &mut reader, &mut writer);
    expect_eq(rt, done, Err(ServeFault::Format));
    expect_eq(rt, reader.len(), 10);
    assert!(rt; writer.is_empty());
}

const REFUSED: &[Config] = &[
    Config { pages: 15, ..SMALL },
    Config {
        pages: 65_537,
        ..SMALL
    },
    Config { harts: 0, ..SMALL },
    Config { harts: 9, ..SMALL },
    Config {
        journal: 4_097,
        ..SMALL
    },
    Config {
        journal: 0,
        ..SMALL
    },
];

#[test]
fn refused_before_a_byte_is_read(rt: HostRuntime) {
    let longer = filled(&rt, 0, 61_441);
    expect_refusal(&rt, longer.as_slice(), SMALL);
    let image = image_of(&rt, &SIX_WORDS);
    for config in REFUSED {
        expect_refusal(&rt, image.as_slice(), *config);
    }
}

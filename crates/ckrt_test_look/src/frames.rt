//! Frames on the line.

use crate::expect::expect_eq;
use crate::packets::{expect_arrivals, last_asked};
use ckrt_gdb_forms::{Arrival, PAYLOAD_LIMIT, Receiver, Request};
use std::process::Abort;

#[test]
fn each_byte_counts(rt: HostRuntime) {
    expect_arrivals(&rt, b"+$g#67", &[Arrival::Acknowledged, Arrival::Packet]);
    expect_arrivals(&rt, b"-\x03x", &[Arrival::Refused, Arrival::Interrupt]);
    expect_arrivals(&rt, b"$#00", &[Arrival::Packet]);
    expect_arrivals(&rt, b"$vCont?#49", &[Arrival::Packet]);
    expect_arrivals(&rt, b"$QStartNoAckMode#B0", &[Arrival::Packet]);
    expect_arrivals(&rt, b"$g#68", &[Arrival::Broken]);
    expect_arrivals(&rt, b"$g#6x", &[Arrival::Broken]);
    expect_arrivals(&rt, b"$g#x7+", &[Arrival::Broken, Arrival::Acknowledged]);
}

#[test]
fn a_frame_begins_anywhere(rt: HostRuntime) {
    expect_arrivals(&rt, b"$m12$g#67", &[Arrival::Packet]);
    expect_arrivals(&rt, b"$m12#$g#67", &[Arrival::Packet]);
    expect_arrivals(&rt, b"$m12#d$g#67", &[Arrival::Packet]);
    expect_arrivals(&rt, b"g#67$g#67", &[Arrival::Packet]);
}

/// A payload of so many zeros, its end, and a packet.
fn expect_after_zeros<R: Abort>(rt: &R, count: usize, want: Option<Arrival>) {
    let mut receiver = Receiver::new();
    let _ = receiver.receive(b'$');
    for _ in 0..count {
        let _ = receiver.receive(0);
    }
    let ended = receiver.receive(b'#');
    let first = receiver.receive(b'0').or(ended);
    expect_eq(rt, receiver.receive(b'0').or(first), want);
    expect_eq(
        rt,
        last_asked(&mut receiver, b"$g#67"),
        Some(Request::Registers),
    );
}

#[test]
fn a_payload_has_a_limit(rt: HostRuntime) {
    expect_after_zeros(&rt, 1, Some(Arrival::Packet));
    expect_after_zeros(&rt, PAYLOAD_LIMIT, Some(Arrival::Packet));
    expect_after_zeros(&rt, PAYLOAD_LIMIT + 1, Some(Arrival::Broken));
}

/// Packets that gdb sends.
const SENT: [&[u8]; 8] = [
    b"$qXfer:features:read:target.xml:0,1000#0c",
    b"$vCont;r1254,125c:3;c#b5",
    b"$vRun;;3130302b33#45",
    b"$Z2,2d04,4#12",
    b"$m1200,40#c0",
    b"$qRcmd,6576656e747320#38",
    b"$Hg3#e2",
    b"$X2300,4:\x01\x00\x00\x00#b8",
];

/// The next number of a row that goes over all of them.
fn next(seed: u32) -> u32 {
    seed.wrapping_mul(1_664_525).wrapping_add(1_013_904_223)
}

/// Sends a packet with one byte that is another, or as it is, and then one that is whole.
fn send_broken<R: Abort>(rt: &R, receiver: &mut Receiver, seed: u32) {
    let frame = SENT[(seed >> 29) as usize];
    let place = (seed >> 16 & 63) as usize;
    for (i, byte) in frame.iter().enumerate() {
        let byte = if i == place {
            (seed >> 8 & 255) as u8
        } else {
            *byte
        };
        let _ = last_asked(receiver, &[byte]);
    }
    expect_eq(rt, last_asked(receiver, b"$g#67"), Some(Request::Registers));
}

#[test]
fn a_packet_arrives_whole_behind_a_broken_one(rt: HostRuntime) {
    let mut receiver = Receiver::new();
    let mut seed = 1;
    for _ in 0..100_000 {
        seed = next(seed);
        send_broken(&rt, &mut receiver, seed);
    }
}

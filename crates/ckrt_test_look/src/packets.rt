//! Packets on a line, what they ask, and replies.

use crate::expect::expect_eq;
use arrayvec::ArrayVec;
use ckrt_gdb_forms::{
    Arrival, Full, Payload, Receiver, Reply, Request, Text, parse_request, write_frame, write_reply,
};
use std::process::Abort;

/// What arrives with these bytes, in order.
pub fn expect_arrivals<R: Abort>(rt: &R, line: &[u8], want: &[Arrival]) {
    let mut receiver = Receiver::new();
    let mut rest = want;
    for byte in line {
        if let Some(arrival) = receiver.receive(*byte) {
            expect_eq(rt, Some(arrival), rest.first().copied());
            rest = rest.get(1..).unwrap_or_default();
        }
    }
    expect_eq(rt, rest.len(), 0);
}

/// The request of the last packet that comes with these bytes.
pub fn last_asked(receiver: &mut Receiver, line: &[u8]) -> Option<Request> {
    let mut asked = None;
    for byte in line {
        if receiver.receive(*byte) == Some(Arrival::Packet) {
            asked = Some(parse_request(receiver.payload()));
        }
    }
    asked
}

/// What the packet on this line asks.
pub fn expect_asked<R: Abort>(rt: &R, line: &[u8], want: Request) {
    expect_eq(rt, last_asked(&mut Receiver::new(), line), Some(want));
}

/// A text of gdb's user.
pub fn text<R: Abort>(rt: &R, bytes: &[u8]) -> Text {
    let mut text = ArrayVec::new();
    assert!(rt; text.try_extend_from_slice(bytes).is_ok());
    text
}

/// A reply as it goes over the line.
pub fn expect_reply<R: Abort>(rt: &R, reply: Reply<'_>, line: &[u8]) {
    let mut payload = Payload::new();
    let mut frame = ArrayVec::new();
    expect_eq(rt, write_reply(&reply, &mut payload), Ok(()));
    write_frame(&payload, &mut frame);
    expect_eq(rt, frame.as_slice(), line);
}

/// How many bytes the frame of so many bytes of memory has, where a packet has room for it.
pub fn frame_size(bytes: &[u8]) -> Result<usize, Full> {
    let mut payload = Payload::new();
    let mut frame = ArrayVec::new();
    write_reply(&Reply::Bytes(bytes), &mut payload)?;
    write_frame(&payload, &mut frame);
    Ok(frame.len())
}

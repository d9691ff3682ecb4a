//! Calls and comparisons that stop a test where what comes isn't what is wanted. A test that is a list of them is cheap
//! to prove: what a call requires is tested here, and nothing that it ensures goes on into the test.

use ckrt_disk::{MemoryDisk, StoppingDisk};
use ckrt_test_storage::{OLD_DISK, Piece, SIZE};
use std::fmt::Debug;
use std::process::Abort;

/// Two values of any kind.
pub fn expect_eq<R: Abort, T: Debug + PartialEq + Drop>(rt: &R, got: T, want: T) {
    assert_eq!(rt; got, want);
}

/// Two values, and the place or call that they are about.
pub fn expect_eq_at<R: Abort, P: Debug + Drop, T: Debug + PartialEq + Drop>(
    rt: &R,
    place: P,
    got: T,
    want: T,
) {
    assert_eq!(rt; got, want, "at {place:?}");
}

/// Bytes.
pub fn expect_bytes<R: Abort>(rt: &R, got: &[u8], want: &[u8]) {
    expect_eq(rt, got, want);
}

/// The bytes from an offset on.
pub fn expect_part<R: Abort>(rt: &R, bytes: &[u8], at: usize, part: &[u8]) {
    let (_, rest) = bytes.split_at_checked(at).unwrap_or((&[], &[]));
    expect_eq_at(rt, at, rest.starts_with(part), true);
}

/// A disk in memory with these bytes.
pub fn memory_disk<R: Abort + AllocGlobal>(rt: &R, bytes: Vec<u8>) -> MemoryDisk {
    MemoryDisk::new(rt.alloc(), bytes).expect(rt, "memory for a disk")
}

/// A disk with these bytes that stops at a call and then lays a fill over its pending bytes.
pub fn stopping_disk<R: Abort + AllocGlobal>(
    rt: &R,
    bytes: Vec<u8>,
    at_call: u64,
    fill: &[u8],
) -> StoppingDisk {
    StoppingDisk::new(rt.alloc(), bytes, at_call, copied(rt, fill)).expect(rt, "memory for a disk")
}

/// A copy of bytes.
pub fn copied<R: Abort + AllocGlobal>(rt: &R, bytes: &[u8]) -> Vec<u8> {
    bytes.to_vec(rt.alloc()).expect(rt, "memory for bytes")
}

/// That many bytes of one value.
pub fn filled<R: Abort + AllocGlobal>(rt: &R, byte: u8, size: usize) -> Vec<u8> {
    vec![in rt.alloc(); byte; size].expect(rt, "memory for bytes")
}

/// Bytes after others.
pub fn push<R: Abort>(rt: &R, bytes: &mut Vec<u8>, more: &[u8]) {
    bytes.extend_from_slice(more).expect(rt, "memory for bytes");
}

/// Bytes in the place of others.
pub fn lay<R: Abort>(rt: &R, image: &mut Vec<u8>, at: usize, bytes: &[u8]) {
    let end = at.saturating_add(bytes.len());
    assert!(rt; end <= image.len());
    image.as_mut_slice()[at..end].copy_from_slice(bytes);
}

/// That many zeros after the bytes that there are.
pub fn push_zeros<R: Abort>(rt: &R, bytes: &mut Vec<u8>, count: usize) {
    let size = bytes.len().saturating_add(count);
    bytes.resize(size, 0).expect(rt, "memory for bytes");
}

/// Pieces, one after the other.
fn bytes_of<R: Abort + AllocGlobal>(rt: &R, pieces: &[Piece]) -> Vec<u8> {
    let mut bytes = Vec::new(rt.alloc());
    for (front, zeros) in pieces {
        push(rt, &mut bytes, front);
        push_zeros(rt, &mut bytes, *zeros);
    }
    bytes
}

/// An image of these words, little-endian.
pub fn image_of<R: Abort + AllocGlobal>(rt: &R, words: &[u32]) -> Vec<u8> {
    let mut image = Vec::new(rt.alloc());
    for word in words {
        push(rt, &mut image, &word.to_le_bytes());
    }
    image
}

/// The hexadecimal digits of a line of output, and none of another.
fn digits_of(line: &[u8]) -> &[u8] {
    if !line.starts_with(b"out ") {
        return &[];
    }
    line.rsplit(|byte| *byte == b' ').next().unwrap_or(&[])
}

/// What these replies put to the console, in hexadecimal digits.
pub fn put_by<R: Abort + AllocGlobal>(rt: &R, replies: &[u8]) -> Vec<u8> {
    let mut put = Vec::new(rt.alloc());
    for line in replies.split(|byte| *byte == b'\n') {
        push(rt, &mut put, digits_of(line));
    }
    put
}

/// A disk of version 1 with this guest, which hasn't begun.
pub fn old_disk<R: Abort + AllocGlobal>(rt: &R, words: &[u32]) -> Vec<u8> {
    let mut disk = bytes_of(rt, OLD_DISK);
    push(rt, &mut disk, image_of(rt, words).as_slice());
    disk.resize(SIZE, 0).expect(rt, "memory for a disk");
    disk
}

//! Calls and comparisons that stop a test where what comes isn't what is wanted. A test that is a list of them is cheap
//! to prove: what a call requires is tested here, and nothing that it ensures goes on into the test.

ghost use Rattle.std.specs.Prelude.{IsTrue, ◌+◌, ◌≤◌};

use crate::Piece;
use ckrt_disk::{DeviceFault, Disk, MemoryDisk, StoppingDisk};
use std::fmt::{Debug, Display};
use std::fs::{self, File, Files};
use std::process::Abort;

/// Two values of any kind.
pub fn expect_eq<R: Abort, T: Debug + PartialEq + Drop>(rt: &R, got: T, want: T) {
    assert_eq!(rt; got, want);
}

/// Two values, and the place or call that they are about.
pub fn expect_eq_at<R: Abort, P: Debug + Drop, T: Debug + PartialEq + Drop>(
    rt: &R,
    place: P,
    got: T,
    want: T,
) {
    assert_eq!(rt; got, want, "at {place:?}");
}

/// How a value is printed.
pub fn expect_text<R: Abort + AllocGlobal, T: Display + Drop>(rt: &R, value: T, text: &str) {
    let printed = format!(in rt.alloc(); "{value}").expect(rt, "memory for a text");
    expect_bytes(rt, printed.as_bytes(), text.as_bytes());
}

/// Bytes.
pub fn expect_bytes<R: Abort>(rt: &R, got: &[u8], want: &[u8]) {
    expect_eq(rt, got, want);
}

/// A disk in memory with these bytes.
pub fn memory_disk<R: Abort + AllocGlobal>(rt: &R, bytes: Vec<u8>) -> MemoryDisk {
    MemoryDisk::new(rt.alloc(), bytes).expect(rt, "memory for a disk")
}

/// A disk with these bytes that stops at a call and then lays a fill over its pending bytes.
pub fn stopping_disk<R: Abort + AllocGlobal>(
    rt: &R,
    bytes: Vec<u8>,
    at_call: u64,
    fill: &[u8],
) -> StoppingDisk {
    StoppingDisk::new(rt.alloc(), bytes, at_call, copied(rt, fill)).expect(rt, "memory for a disk")
}

/// Whether that many bytes from an offset on are bytes of a disk.
fn is_inside<D: Disk>(disk: &D, at: usize, length: usize) -> bool
    ensures { IsTrue result → at + length ≤ D.size disk.now }
{
    let size = disk.size();
    at <= size && length <= size - at
}

/// A write, and what it answers.
pub fn expect_write<R: Abort, D: Disk>(
    rt: &R,
    disk: &mut D,
    at: usize,
    bytes: &[u8],
    want: Result<(), DeviceFault>,
) {
    assert!(rt; is_inside(disk, at, bytes.len()));
    expect_eq(rt, disk.write(at, bytes), want);
}

/// A sync, and what it answers.
pub fn expect_sync<R: Abort, D: Disk>(rt: &R, disk: &mut D, want: Result<(), DeviceFault>) {
    expect_eq(rt, disk.sync(), want);
}

/// A read of up to 8 bytes, and what is read.
pub fn expect_read<R: Abort, D: Disk>(rt: &R, disk: &mut D, at: usize, want: &[u8]) {
    let mut room = [0xcc; 8];
    let length = want.len();
    assert!(rt; length <= 8 && is_inside(disk, at, length));
    let buf = &mut room[..length];
    expect_eq(rt, disk.read(at, buf), Ok(()));
    expect_bytes(rt, buf, want);
}

/// A read of up to 8 bytes that the disk fails.
pub fn expect_failed_read<R: Abort, D: Disk>(rt: &R, disk: &mut D, at: usize, length: usize) {
    let mut room = [0xcc; 8];
    assert!(rt; length <= 8 && is_inside(disk, at, length));
    expect_eq(rt, disk.read(at, &mut room[..length]), Err(DeviceFault));
}

/// A file with these bytes, in place of what was there.
pub fn write_file<R: Abort + Files<File = File>>(rt: &R, path: &str, bytes: &[u8]) {
    fs::write(rt, path, bytes).expect(rt, "the file is written");
}

/// A file goes.
pub fn remove_file<R: Abort + Files<File = File>>(rt: &R, path: &str) {
    fs::remove_file(rt, path).expect(rt, "the file is removed");
}

/// A copy of bytes.
pub fn copied<R: Abort + AllocGlobal>(rt: &R, bytes: &[u8]) -> Vec<u8> {
    bytes.to_vec(rt.alloc()).expect(rt, "memory for bytes")
}

/// That many bytes of one value.
pub fn filled<R: Abort + AllocGlobal>(rt: &R, byte: u8, size: usize) -> Vec<u8> {
    vec![in rt.alloc(); byte; size].expect(rt, "memory for bytes")
}

/// Bytes after others.
pub fn push<R: Abort>(rt: &R, bytes: &mut Vec<u8>, more: &[u8]) {
    bytes.extend_from_slice(more).expect(rt, "memory for bytes");
}

/// That many zeros after the bytes that there are.
pub fn push_zeros<R: Abort>(rt: &R, bytes: &mut Vec<u8>, count: usize) {
    let size = bytes.len().saturating_add(count);
    bytes.resize(size, 0).expect(rt, "memory for bytes");
}

/// Pieces, one after the other.
pub fn bytes_of<R: Abort + AllocGlobal>(rt: &R, pieces: &[Piece]) -> Vec<u8> {
    let mut bytes = Vec::new(rt.alloc());
    for (front, zeros) in pieces {
        push(rt, &mut bytes, front);
        push_zeros(rt, &mut bytes, *zeros);
    }
    bytes
}

/// The bytes from an offset on.
pub fn expect_part<R: Abort>(rt: &R, bytes: &[u8], at: usize, part: &[u8]) {
    let (_, rest) = bytes.split_at_checked(at).unwrap_or((&[], &[]));
    expect_eq_at(rt, at, rest.starts_with(part), true);
}

/// Bytes in the place of others.
pub fn lay<R: Abort>(rt: &R, image: &mut Vec<u8>, at: usize, bytes: &[u8]) {
    let end = at.saturating_add(bytes.len());
    assert!(rt; end <= image.len());
    image.as_mut_slice()[at..end].copy_from_slice(bytes);
}

/// An image of these words, little-endian.
pub fn image_of<R: Abort + AllocGlobal>(rt: &R, words: &[u32]) -> Vec<u8> {
    let mut image = Vec::new(rt.alloc());
    for word in words {
        push(rt, &mut image, &word.to_le_bytes());
    }
    image
}

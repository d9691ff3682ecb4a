//! Calls and comparisons that stop a test where what comes isn't what is wanted. A test that is a list of them is cheap
//! to prove: what a call requires is tested here, and nothing that it ensures goes on into the test.

use std::fmt::Debug;
use std::process::Abort;

/// Two values of any kind.
pub fn expect_eq<R: Abort, T: Debug + PartialEq + Drop>(rt: &R, got: T, want: T) {
    assert_eq!(rt; got, want);
}

/// Two values, and the place or call that they are about.
pub fn expect_eq_at<R: Abort, P: Debug + Drop, T: Debug + PartialEq + Drop>(
    rt: &R,
    place: P,
    got: T,
    want: T,
) {
    assert_eq!(rt; got, want, "at {place:?}");
}

/// Bytes.
pub fn expect_bytes<R: Abort>(rt: &R, got: &[u8], want: &[u8]) {
    expect_eq(rt, got, want);
}

/// Bytes after others.
pub fn push<R: Abort>(rt: &R, bytes: &mut Vec<u8>, more: &[u8]) {
    bytes.extend_from_slice(more).expect(rt, "memory for bytes");
}

/// An image of these words, little-endian.
pub fn image_of<R: Abort + AllocGlobal>(rt: &R, words: &[u32]) -> Vec<u8> {
    let mut image = Vec::new(rt.alloc());
    for word in words {
        push(rt, &mut image, &word.to_le_bytes());
    }
    image
}

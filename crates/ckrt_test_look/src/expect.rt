//! What all tests here share: comparisons that stop a test where what comes isn't what is wanted, and machines of small programs.

use arrayvec::ArrayVec;
use ckrt_machine::Machine;
use std::fmt::Debug;
use std::process::Abort;

/// Two values of any kind.
pub fn expect_eq<R: Abort, T: Debug + PartialEq + Drop>(rt: &R, got: T, want: T) {
    assert_eq!(rt; got, want);
}

/// The bytes of a program's words, the lowest one first.
pub fn image_of<R: Abort>(rt: &R, words: &[u32]) -> ArrayVec<u8, 512> {
    let mut image: ArrayVec<u8, 512> = ArrayVec::new();
    for word in words {
        let taken = image.try_extend_from_slice(&word.to_le_bytes());
        assert!(rt; taken.is_ok(), "an image of 128 words at most");
    }
    image
}

/// A machine of 16 pages and two harts, whose program begins with these words.
pub fn machine_of<R: Abort + AllocGlobal>(rt: &R, words: &[u32]) -> Machine {
    match Machine::new(rt.alloc(), 16, 2, image_of(rt, words).as_slice()) {
        Ok(machine) => machine,
        Err(error) => panic!(rt; "{error}"),
    }
}

//! The console's input.
ghost use Rattle.std.specs.Prelude.{◌≡◌, ◌+◌, ◌≤◌, ◌++◌, [], length, drop, slice_get, IfOk};

use circular_buffer::HeapCircularBuffer;
use std::alloc::{AllocError, Global};
use std::marker::Model;

/// How many bytes of input may wait to be read. This project's choice.
pub const INPUT_LIMIT: usize = 4_096;

/// The bytes of input that no thread has read yet, first one first: at most [`INPUT_LIMIT`].
/// Its memory is taken by [`InputQueue::new`] alone.
#[derive(Drop)]
pub struct InputQueue {
    bytes: HeapCircularBuffer<u8>,
}

impl Model for InputQueue {
    ghost use Rattle.std.specs.Prelude.{ℕ, List, length, ◌≡◌, ◌≤◌};
    ghost use Rattle.ckrt_calls.specs.declared.input.TheConstants.{INPUT_LIMIT};

    ghost Value = { List ℕ };

    ghost view = { λ q. q.bytes.items };

    ghost invariant = { λ q.
        (q.bytes.capacity ≡ INPUT_LIMIT) × (length q.bytes.items ≤ INPUT_LIMIT) };
}

impl InputQueue {
    /// An empty queue. The only error is that the memory for it is refused.
    pub fn new(alloc: Global) -> Result<Self, AllocError>
        ensures { IfOk result (λ queue. queue ≡ []) }
    {
        Ok(InputQueue {
            bytes: HeapCircularBuffer::with_capacity(alloc, INPUT_LIMIT)?,
        })
    }

    /// What always holds of the queue, for a proof.
    pub fn known(&self)
        ensures { length self.now ≤ INPUT_LIMIT }
    {
        let _ = &self.bytes;
    }

    /// How many bytes wait to be read, at most [`INPUT_LIMIT`].
    pub fn len(&self) -> usize
        ensures len { result ≡ length self.now }
        ensures within { result ≤ INPUT_LIMIT }
    {
        self.bytes.len()
    }

    /// The bytes, first one first, in two slices.
    pub fn as_slices(&self) -> (&[u8], &[u8])
        ensures bytes { result.0.now ++ result.1.now ≡ self.now }
        ensures within { length self.now ≤ INPUT_LIMIT }
    {
        self.bytes.as_slices()
    }

    /// The first byte, which the queue doesn't have any more, if there is one.
    pub fn pop_first(&mut self) -> Option<u8>
        ensures byte { result ≡ slice_get self.old 0 }
        ensures rest { self.new ≡ drop 1 self.old }
    {
        self.bytes.pop_front()
    }

    /// Appends bytes. There must be room for them.
    pub fn append(&mut self, bytes: &[u8])
        requires { length self.old + length bytes.now ≤ INPUT_LIMIT }
        ensures { self.new ≡ self.old ++ bytes.now }
    {
        self.bytes.fill_from_slice(bytes);
    }
}

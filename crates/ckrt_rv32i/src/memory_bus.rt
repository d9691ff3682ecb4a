//! What the processor asks of a memory.
ghost use Rattle.std.specs.Prelude.{◌≡◌, ℕ, List, [], ◌∷◌, IsTrue, false, Some, None, IfSome, ◌<◌, if◌then◌else◌};
ghost use Rattle.ckrt_rv32i.specs.Memory.{value_end, is_aligned, is_valid, loaded, stored};

/// How many bytes a load or a store concerns: 1, 2 or 4.
#[derive(Clone, Copy, Debug, PartialEq, Eq)]
pub enum Size {
    /// 1 byte.
    Byte,
    /// 2 bytes, at an even address.
    Half,
    /// 4 bytes, at a multiple of 4.
    Word,
}

/// A memory: a list of bytes, which the guest's addresses name from 4,096 on. Page 0 is never valid.
pub trait Bus {
    /// The bytes. Address a names item a - 4096.
    ghost bytes: { Self → List ℕ };

    /// What stores to these addresses keep between the memory before and the memory after, besides the bytes: its marks of
    /// what was changed, or its size.
    ghost Follows: { List ℕ → Self → Self → Type 0 };

    /// The value of that many bytes from `address` on, the low byte first. `None` where one of them isn't in the memory.
    fn load(&self, address: u32, size: Size) -> Option<u32>
        requires { IsTrue (is_aligned address size) }
        ensures small { IfSome result (λ value. value < value_end size) }
        ensures value { result
            ≡ (if is_valid (bytes self.now) address size then Some
            (loaded (bytes self.now) address size) else None) };

    /// Puts the low bytes of `value` from `address` on, and answers true. Answers false, and changes nothing, where one of them isn't in the memory.
    fn store(&mut self, address: u32, size: Size, value: u32) -> bool
        requires { IsTrue (is_aligned address size) }
        ensures valid { result ≡ is_valid (bytes self.old) address size }
        ensures refused { result ≡ false → self.new ≡ self.old }
        ensures stored { bytes self.new
            ≡ (if is_valid (bytes self.old) address size then stored (bytes self.old) address size
            value else bytes self.old) }
        ensures follows { Follows (address ∷ []) self.old self.new };

    /// A memory that no store touched follows itself, whatever the addresses.
    ghost same: { (addresses : List ℕ) (bus : Self) → Follows addresses bus bus };
}

//! The registers of a hart: the pc, and x0 to x31.
#![tactic(auto)]

ghost use Rattle.std.specs.Prelude.{◌≡◌, ◌<◌, ◌^◌, ℕ, length, slice_index, replicate};
ghost use Rattle.ckrt_registers.specs.Registers.{Registers, get, put, registers_of};

use std::marker::Model;

/// The pc and the registers x0 to x31, words each. x0 is always 0.
#[derive(Clone, Copy, Debug, PartialEq, Eq)]
pub struct Regs {
    pc: u32,
    x: [u32; 32],
}

impl Model for Regs {
    ghost use Rattle.std.specs.Prelude.{slice_index, ◌≡◌};
    ghost use Rattle.ckrt_registers.specs.Registers.{Registers};

    ghost Value = { Registers };

    ghost view = { λ r. record { pc = r.pc; x = r.x } };

    ghost invariant = { λ r. slice_index r.x 0 ≡ 0 };

    ghost inverse = { λ h. record { pc = h.pc; x = h.x } };
}

/// What always holds of words, for a proof.
fn known_words(words: &[u32])
    ensures { (i : ℕ) → i < length words.now → slice_index words.now i < 2 ^ 32 }
{}

impl Regs {
    /// This pc, and 0 in each register.
    pub fn new(pc: u32) -> Self
        ensures { result ≡ record { pc = pc; x = replicate 32 0 } }
    {
        Regs { pc, x: [0; 32] }
    }

    /// What always holds of the registers, for a proof: there are 32, words each, and x0 is 0.
    pub fn known(&self)
        ensures size { length self.now.x ≡ 32 }
        ensures zero { get self.now 0 ≡ 0 }
        ensures words { (r : ℕ) → r < 32 → get self.now r < 2 ^ 32 }
    {
        known_words(self.x.as_slice());
    }

    /// The address of the instruction that is executed next.
    #[inline(always)]
    pub fn pc(&self) -> u32
        ensures { result ≡ self.now.pc }
    {
        self.pc
    }

    /// Puts an address into the pc; `execute` requires a multiple of 4.
    #[inline(always)]
    pub fn set_pc(&mut self, pc: u32)
        ensures { self.new ≡ record self.old { pc = pc } }
    {
        self.pc = pc;
    }

    /// What a register holds. `register` is 0 to 31.
    #[inline(always)]
    pub fn get(&self, register: u8) -> u32
        requires { register < 32 }
        ensures { result ≡ get self.now register }
    {
        self.x[register as usize]
    }

    /// Puts a value into a register; x0 stays 0. `register` is 0 to 31.
    #[inline(always)]
    pub fn put(&mut self, register: u8, value: u32)
        requires { register < 32 }
        ensures { self.new ≡ record self.old { x = put self.old register value } }
    {
        if register != 0 {
            self.x[register as usize] = value;
        }
    }

    /// The register file: x0 to x31, and after them a place that no instruction reads.
    #[inline(always)]
    pub fn file(&self) -> [u32; 33]
        ensures registers { registers_of self.now.pc result ≡ self.now }
        ensures zero { slice_index result 0 ≡ 0 }
    {
        let mut file = [0; 33];
        for register in 0..32 {
            file[register] = self.x[register];
        }
        file
    }

    /// This pc, and x0 to x31 from a register file, whose x0 is 0.
    #[inline(always)]
    pub fn from_file(pc: u32, file: &[u32; 33]) -> Regs
        requires { slice_index file.now 0 ≡ 0 }
        ensures { result ≡ registers_of pc file.now }
    {
        let mut x = [0; 32];
        for register in 0..32 {
            x[register] = file[register];
        }
        Regs { pc, x }
    }
}

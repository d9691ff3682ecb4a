//! Laws of the table and of a step, which no call needs and each reader may rely on.
ghost use Rattle.std.specs.Prelude.{◌≡◌, ◌^◌, ◌<◌, ℕ, List, length};
ghost use Rattle.ckrt_registers.specs.Registers.{Registers};
ghost use Rattle.ckrt_rv32i.specs.declared.execution.Cause.{Cause};
ghost use Rattle.ckrt_rv32i.specs.declared.execution.Outcome.TheVariants.{Fault};
ghost use Rattle.ckrt_rv32i.specs.declared.instruction.Instr.{Instr};
ghost use Rattle.ckrt_rv32i.specs.Table.{Encodes, IsInRange};
ghost use Rattle.ckrt_rv32i.specs.Text.{text_of};
ghost use Rattle.ckrt_rv32i.specs.Effect.{instruction_step, fault};

/// No word encodes two instructions.
#[tactic(auto, using(crate::proofs::DecodingLaws::one_instruction))]
pub fn one_instruction_a_word()
    ensures { (w : ℕ) (i j : Instr) → Encodes w i → Encodes w j → i ≡ j }
{}

/// No two words encode one instruction.
#[tactic(auto, using(crate::proofs::TableLaws::one_word))]
pub fn one_word_an_instruction()
    ensures { (w v : ℕ) (i : Instr) → w < 2 ^ 32 → v < 2 ^ 32 → Encodes w i → Encodes v i → w ≡ v }
{}

/// No two instructions in range have one text.
pub fn one_instruction_a_text()
    ensures { (i j : Instr) → IsInRange i → IsInRange j → text_of i ≡ text_of j → i ≡ j }
{}

/// A step that faults leaves the pc, the registers and the memory as they were.
#[tactic(auto, using(crate::proofs::EffectLaws::faulted))]
pub fn fault_changes_nothing()
    ensures { (c : Cause) (h : Registers) (m : List ℕ) → (instruction_step h m).outcome ≡ Fault c
        → instruction_step h m ≡ fault c h m }
{}

/// A step keeps the number of the memory's bytes.
#[tactic(auto, using(crate::proofs::EffectLaws::kept_size))]
pub fn memory_keeps_its_size()
    ensures { (h : Registers) (m : List ℕ) → length (instruction_step h m).bytes ≡ length m }
{}

//! Laws of saved tables. Each is the contract of a function with an empty body.
ghost use Rattle.std.specs.Prelude.{◌≡◌, ◌≤◌, ℕ, Option, List, [], length};
ghost use Rattle.ckrt_calls.specs.declared.table.Tables.{Tables};
ghost use Rattle.ckrt_calls.specs.Beginnings.{fresh, with_keys_off};
ghost use Rattle.ckrt_calls.specs.WellFormed.{IsWellFormed};
ghost use Rattle.ckrt_tables.specs.Encoding.{LONGEST_TABLES, encoding_of, IsHeld};
ghost use Rattle.ckrt_tables.specs.Savable.{AreDistinct, CanBeSaved};
ghost use Rattle.ckrt_tables.specs.Decoding.{Saved, DecodesTo};
ghost use Rattle.ckrt_tables.specs.Fresh.{IsFreshEncoding, IsFreshEncoding1, fresh_bytes, fresh_bytes_1};

/// The tables of a program that hasn't begun, without output, have these 176 bytes, whatever its harts; in version 1, where
/// keys are off, these 170.
pub fn fresh_encoding()
    ensures bytes { IsFreshEncoding }
    ensures length { (pages : ℕ) → length (fresh_bytes pages) ≡ 176 }
    ensures bytes_1 { IsFreshEncoding1 }
    ensures length_1 { (pages : ℕ) → length (fresh_bytes_1 pages) ≡ 170 }
{}

/// No well-formed tables with held output have a longer encoding than [`crate::LONGEST_TABLES`] bytes, and in version 1 none
/// than 53,922.
pub fn longest_encoding()
    ensures any { (version : ℕ) (s : Tables) (held : List ℕ) → IsWellFormed s → IsHeld held
        → length (encoding_of version s held) ≤ LONGEST_TABLES }
    ensures version_1 { (s : Tables) (held : List ℕ) → IsWellFormed s → IsHeld held
        → length (encoding_of 1 s held) ≤ 53922 }
{}

/// No two savable states of a program with that many harts have one encoding.
pub fn encodings_are_distinct()
    ensures { (version harts : ℕ) → AreDistinct version harts }
{}

/// Bytes decode to one thing only: to one state, or to nothing.
#[tactic(auto, using(crate::proofs::Decoded::decodes_once))]
pub fn decodes_to_one()
    ensures { (version harts : ℕ) (bytes : List ℕ) (a b : Option Saved)
        → DecodesTo version harts bytes a → DecodesTo version harts bytes b → a ≡ b }
{}

/// The tables of a program that hasn't begun, without output, can be saved, also in version 1, where keys are off.
pub fn fresh_is_savable()
    ensures version_2 { (pages harts : ℕ) → pages ≤ 65536 → harts ≤ 8
        → CanBeSaved 2 harts (fresh pages harts) [] }
    ensures version_1 { (pages harts : ℕ) → pages ≤ 65536 → harts ≤ 8
        → CanBeSaved 1 harts (with_keys_off (fresh pages harts)) [] }
{}

//! Laws of a map from guest addresses.
ghost use Rattle.std.specs.Prelude.{◌≡◌, ◌==◌, ℕ, true, List, Some, None, if◌then◌else◌};
ghost use Rattle.ckrt_objects.specs.declared.address_map.Entry.{Entry};
ghost use Rattle.ckrt_objects.specs.AddressMap.{lookup, removed, stored, is_rising};

/// A map has at each address what was stored there last, and nothing where it was removed last; a change at one address
/// leaves all others.
#[tactic(auto, using(crate::proofs::AddressMap::lookup_stored, crate::proofs::AddressMap::lookup_removed))]
pub fn map_after_a_change<T>()
    ensures stored { (a b : ℕ) (v : T) (es : List (Entry T))
        → lookup b (stored a v es) ≡ (if a == b then Some v else lookup b es) }
    ensures removed { (a b : ℕ) (es : List (Entry T)) → is_rising es ≡ true
        → lookup b (removed a es) ≡ (if a == b then None else lookup b es) }
{}

/// Its addresses go on rising.
#[tactic(auto, using(crate::proofs::AddressMap::rising_stored, crate::proofs::AddressMap::rising_removed))]
pub fn map_stays_rising<T>()
    ensures stored { (a : ℕ) (v : T) (es : List (Entry T)) → is_rising es ≡ true
        → is_rising (stored a v es) ≡ true }
    ensures removed { (a : ℕ) (es : List (Entry T)) → is_rising es ≡ true
        → is_rising (removed a es) ≡ true }
{}

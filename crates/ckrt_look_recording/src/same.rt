//! Whether two states are the same.
ghost use Rattle.std.specs.Prelude.{◌≡◌, ◌↔◌, IsTrue, []};
ghost use Rattle.ckrt_calls.specs.WellFormed.{IsWellFormed};

use ckrt_calls::Tables;
use ckrt_machine::Machine;
use ckrt_memory::Memory;
use ckrt_tables::{Held, TABLES_ROOM, encode_tables};
use std::alloc::{AllocError, Global};

/// Whether two memories have the same bytes.
fn are_same_memories(one: &Memory, other: &Memory) -> bool
    ensures { IsTrue result ↔ (one.now.bytes ≡ other.now.bytes) }
{
    let pages = one.pages();
    if other.pages() != pages {
        return false;
    }
    for page in 1..pages {
        if one.page(page) != other.page(page) {
            return false;
        }
    }
    true
}

/// What two states are compared with: whoever has it takes no memory to compare them.
#[derive(Drop)]
pub struct Comparison {
    /// No output is held: tables are encoded with it.
    none: Held,
    ghost empty: { none.items ≡ [] },
}

impl Comparison {
    /// Takes what memory it needs.
    pub fn new(alloc: Global) -> Result<Comparison, AllocError> {
        let none = Held::with_capacity(alloc, 0)?;
        Ok(Comparison { none })
    }

    /// Whether tables are the same: no two have one encoding.
    fn are_same_tables(&self, one: &Tables, other: &Tables) -> bool
        requires one { IsWellFormed one.now }
        requires other { IsWellFormed other.now }
        ensures { IsTrue result ↔ (one.now ≡ other.now) }
    {
        if one.threads.hart_count() != other.threads.hart_count() {
            return false;
        }
        let mut bytes = [0; TABLES_ROOM];
        let mut others = [0; TABLES_ROOM];
        let end = encode_tables(one, &self.none, &mut bytes);
        let others_end = encode_tables(other, &self.none, &mut others);
        bytes[..end] == others[..others_end]
    }

    /// Whether two machines have the same state: memory and tables.
    pub fn are_same(&self, one: &Machine, other: &Machine) -> bool
        ensures { IsTrue result ↔ (one.now.state ≡ other.now.state) }
    {
        are_same_memories(one.memory(), other.memory())
            && self.are_same_tables(one.tables(), other.tables())
    }
}

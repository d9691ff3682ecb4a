//! The saved tables of a program that hasn't begun.
ghost use Rattle.std.specs.Prelude.{◌≡◌, true};
ghost use Rattle.ckrt_stored.specs.Layout.{is_valid};
ghost use Rattle.ckrt_tables.specs.Fresh.{fresh_bytes};

use crate::config::Config;
use crate::fields::put;
use arrayvec::ArrayVec;

/// How many bytes the tables of a program have that hasn't begun.
pub(crate) const FRESH_TABLES_SIZE: usize = 176;

/// The tables of a program that hasn't begun: thread 1, marked as the initial one, at the memory's first address, with the
/// return gate in x1 and the memory's end in x2; the mark of keys; and nothing else.
pub(crate) fn fresh_tables(config: &Config) -> ArrayVec<u8, FRESH_TABLES_SIZE>
    requires { is_valid config.now ≡ true }
    ensures { result.items ≡ fresh_bytes config.now.pages }
{
    let mut tables = ArrayVec::new();
    put(&mut tables, &[0; 24]);
    put(&mut tables, &[1, 1, 1, 0, 0]);
    put(&mut tables, &[0; 4]);
    put(&mut tables, &4_096u32.to_le_bytes());
    put(&mut tables, &0xffff_fff0u32.to_le_bytes());
    put(&mut tables, &(4_096 * config.pages).to_le_bytes());
    put(&mut tables, &[0; 125]);
    put(&mut tables, &[1, 0, 0, 0, 0, 0]);
    tables
}

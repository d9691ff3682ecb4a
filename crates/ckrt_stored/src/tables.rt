//! Tables become those of another state.
ghost use Rattle.std.specs.Prelude.{◌≡◌};

use crate::objects::{copied_barriers, copied_mutexes, copied_rwlocks, restore_input};
use crate::threads::restore_threads;
use ckrt_calls::Tables;

/// The tables become those of another state of a program with as many harts. It takes no memory.
pub fn restore_tables(tables: &mut Tables, kept: &Tables)
    requires { tables.old.threads.hart_count ≡ kept.now.threads.hart_count }
    ensures { tables.new ≡ kept.now }
{
    restore_threads(&mut tables.threads, &kept.threads);
    tables.mutexes = copied_mutexes(&kept.mutexes);
    tables.barriers = copied_barriers(&kept.barriers);
    tables.rwlocks = copied_rwlocks(&kept.rwlocks);
    restore_input(&mut tables.input, &kept.input);
    tables.clock = kept.clock;
    tables.closed = kept.closed;
    tables.status = kept.status;
}

//! The locks of a kit, by their names.
ghost use Rattle.std.specs.Prelude.{◌≡◌};
ghost use Rattle.ckrt_mutex.specs.Mutex.{is_owner, mutex_at};
ghost use Rattle.ckrt_look_races.specs.Kit.{is_in_kit, is_of_kit};

use ckrt_calls::Tables;
use ckrt_mutex::Mutexes;
use ckrt_thread::ThreadId;

/// Whether a name is one of a kit's own locks, as no variable of a program has it.
pub(crate) fn is_of_kit(address: u32) -> bool
    ensures { result ≡ is_of_kit address }
{
    address < 4096
}

/// Whether a thread owns the mutex of this name.
fn owns(mutexes: &Mutexes, thread: ThreadId, address: u32) -> bool
    ensures { result ≡ is_owner thread (mutex_at address mutexes.now) }
{
    mutexes.mutex(address).is_owned_by(thread)
}

/// Whether a thread owns one of the mutexes under which a kit's plain accesses aren't told.
pub(crate) fn is_in_kit(tables: &Tables, thread: ThreadId) -> bool
    ensures { result ≡ is_in_kit thread tables.now }
{
    let mutexes = &tables.mutexes;
    owns(mutexes, thread, 1)
        || owns(mutexes, thread, 2)
        || owns(mutexes, thread, 3)
        || owns(mutexes, thread, 4)
}

//! What waits name.
ghost use Rattle.std.specs.Prelude.{◌≡◌, ℕ, Option};
ghost use Rattle.ckrt_thread.specs.declared.records.Wait.{Wait};
ghost use Rattle.ckrt_objects.specs.InUse.{NamesByObject};

use ckrt_thread::Wait;

/// A kind of object that waits name by its address.
pub trait Named {
    /// The address of the object of this kind that a wait names.
    ghost named: { Wait → Option ℕ };

    /// The address of the object of this kind that a wait names.
    fn named_by(wait: &Wait) -> Option<u32>
        ensures { result ≡ named wait.now };

    /// All who wait for one object name the same, except at a condition. So the queues tell how many are named at most.
    ghost by_object: { NamesByObject named };
}

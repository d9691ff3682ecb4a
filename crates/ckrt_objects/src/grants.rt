//! Granting an object to its waiters.
ghost use Rattle.std.specs.Prelude.{◌≡◌, ◌<◌, ◌≤◌, Bool, true};
ghost use Rattle.ckrt_thread.specs.declared.records.Wait.{Wait};
ghost use Rattle.ckrt_thread.specs.Granting.{grant_waiters};
ghost use Rattle.ckrt_objects.specs.Granting.{rule_of};

use ckrt_thread::{Object, Threads, Wait};

/// An object that is granted to those who wait for it, the longest waiting first.
pub trait Grant {
    /// What always holds of it.
    ghost IsProper: { Self → Type 0 };

    /// Whether the first thread that waits for it can have it.
    ghost is_admissible: { Self → Wait → Bool };

    /// What it is when who waits has been granted it.
    ghost granted: { Self → Wait → Self };

    /// Whether the first thread that waits for it can have it.
    fn admits(&self, wait: &Wait) -> bool
        ensures { result ≡ is_admissible self.now wait.now };

    /// Who waits is granted it.
    fn grant(&mut self, wait: &Wait)
        requires proper { IsProper self.old }
        requires thread { (0 < wait.now.thread) × (wait.now.thread ≤ 64) }
        requires admissible { is_admissible self.old wait.now ≡ true }
        ensures granted { self.new ≡ granted self.old wait.now }
        ensures proper { IsProper self.new };
}

/// Grants an object to its waiters: while the first thread that waits for it is admissible, that wait ends, and its thread gets
/// the wait's result in x10, or goes to its next handler where it was cancelled.
#[tactic(auto, using(crate::proofs::Granting::none_up_to, crate::proofs::Granting::stop_up_to, crate::proofs::Granting::step_up_to))]
pub fn grant_waiters<T: Grant>(threads: &mut Threads, object: Object, value: &mut T)
    requires { T.IsProper value.old }
    ensures threads { threads.new
        ≡ (grant_waiters (rule_of T.is_admissible T.granted object) value.old threads.old).1 }
    ensures value { value.new
        ≡ (grant_waiters (rule_of T.is_admissible T.granted object) value.old threads.old).0 }
    ensures proper { T.IsProper value.new }
{
    for _ in 0..threads.wait_count() {
        let Some(first) = threads.first_waiter(object) else {
            return;
        };
        if !value.admits(&first) {
            return;
        }
        value.grant(&first);
        let Some(waiter) = threads.wake_first(object) else {
            return;
        };
        threads.answer(waiter.thread, waiter.result());
    }
}

//! What steps tell of locks.
ghost use Rattle.std.specs.Prelude.{◌≡◌};
ghost use Rattle.ckrt_look_clocks.specs.Within.{noted_all};
ghost use Rattle.ckrt_look_races.specs.Locking.{begins, gives_up, gives_up_unless, made_anew, takes, taking_by, taking_of};

use crate::holders::thread_holder;
use crate::kit::is_of_kit;
use ckrt_calls::Tables;
use ckrt_look_clocks::{Detector, LockName, Locking, Operation, Place, Taking};
use ckrt_registers::Regs;
use ckrt_thread::ThreadId;

/// How a lock was taken by a thread that has these registers behind its call.
fn taking_by(lock: LockName, reads: bool, place: Place, regs: Option<Regs>) -> Taking
    ensures { result ≡ taking_by lock reads place regs }
{
    match regs {
        Some(regs) => Taking {
            lock,
            reads,
            pc: regs.pc().saturating_sub(4),
            caller: regs.get(1).saturating_sub(4),
            place,
        },
        None => Taking {
            lock,
            reads,
            pc: 0,
            caller: 0,
            place,
        },
    }
}

/// How a thread took a lock that it has.
pub(crate) fn taking_of(
    thread: ThreadId,
    lock: LockName,
    reads: bool,
    place: Place,
    after: &Tables,
) -> Taking
    ensures { result ≡ taking_of thread lock reads place after.now }
{
    taking_by(lock, reads, place, after.threads.regs(thread))
}

/// A thread took a lock, for which it would have waited as long as need be, or not.
pub(crate) fn takes(thread: ThreadId, waits: bool, taking: Taking) -> Operation
    ensures { result ≡ takes thread waits taking }
{
    Operation::Lock(Locking::Take(thread, waits, taking), taking.place)
}

/// A thread gives up a lock.
fn gives_up(place: Place, thread: ThreadId, lock: LockName) -> Operation
    ensures { result ≡ gives_up place thread lock }
{
    Operation::Lock(Locking::GiveUp(thread, lock), place)
}

/// A thread gives up a lock, unless it holds it still.
pub(crate) fn give_up_unless(
    still: bool,
    place: Place,
    thread: ThreadId,
    lock: LockName,
    detector: &mut Detector,
)
    ensures { detector.new
        ≡ noted_all (gives_up_unless still place thread lock) detector.old }
{
    if !still {
        detector.note(&gives_up(place, thread, lock));
    }
}

/// A lock is made or destroyed, unless it is one of a kit.
pub(crate) fn make_anew(place: Place, address: u32, lock: LockName, detector: &mut Detector)
    ensures { detector.new ≡ noted_all (made_anew place address lock) detector.old }
{
    if !is_of_kit(address) {
        detector.note(&Operation::Lock(Locking::Renew(lock), place));
    }
}

/// A thread begins.
pub(crate) fn begins(place: Place, thread: u32) -> Operation
    ensures { result ≡ begins place thread }
{
    Operation::Lock(Locking::Begin(thread_holder(thread) as u8), place)
}

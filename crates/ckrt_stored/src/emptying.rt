//! A table of threads loses all that it has.
ghost use Rattle.std.specs.Prelude.{◌≡◌, ◌≤◌, []};
ghost use Rattle.ckrt_thread.specs.Contents.{empty};
ghost use Rattle.ckrt_stored.specs.Emptying.{HasLost};

use ckrt_thread::{MAX_THREADS, ThreadId, Threads};

/// Nobody waits any more, and no register changes.
fn end_waits(threads: &mut Threads)
    ensures { threads.new ≡ record threads.old { waits = [] } }
{
    while let Some(wait) = threads.wait_at(0) {
        threads.take_wait(wait.thread);
    }
}

/// The number stands for no thread any more, where nobody waits.
fn end_thread(threads: &mut Threads, id: ThreadId)
    requires number { (1 ≤ id) × (id ≤ 64) }
    requires waits { threads.old.waits ≡ [] }
    ensures { HasLost id threads.old threads.new }
{
    threads.known();
    if threads.regs(id).is_none() {
        threads.detach(u32::from(id));
        return;
    }
    threads.finish(id, 0);
    threads.detach(u32::from(id));
}

/// There is no thread any more, no wait, and all harts are idle.
pub fn empty(threads: &mut Threads)
    ensures { threads.new ≡ empty threads.old.keys threads.old.hart_count }
{
    end_waits(threads);
    threads.known();
    for id in 1..MAX_THREADS as ThreadId + 1 {
        end_thread(threads, id);
    }
    threads.known();
}

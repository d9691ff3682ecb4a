//! The queue of each object, in order of the start of waiting.
ghost use Rattle.std.specs.Prelude.{◌≡◌, ◌+◌, ◌<◌, ◌≤◌, ◌++◌, [], ◌∷◌, List, ℕ, true, false, nat_eq, length, Some, map};
ghost use Rattle.std.specs.List.{list_any, position, find};
ghost use Rattle.ckrt_thread.specs.declared.records.Wait.{Wait};
ghost use Rattle.ckrt_thread.specs.Waits.{without};
ghost use Rattle.ckrt_thread.specs.Queues.{object_of, is_same, is_queue_of, no_ends, ends_of, total, named_by, named_by_all, named_at_most, IsDirectory, IsWithEnds, AreQueues, MayJoin, MayLeave};

use crate::links::{ENTRIES, Ends, Links, link, unlink};
use crate::records::{MAX_THREADS, Object, Reason, ThreadId, Wait};
use arrayvec::ArrayVec;

/// An object that threads wait for, and its queue.
#[derive(Clone, Copy, Debug, Default, Drop)]
pub struct Queue {
    pub object: Object,
    pub ends: Ends,
}

/// The queues of all objects: their links, and a directory of those that aren't empty.
#[derive(Drop)]
pub struct Queues {
    pub links: Links,
    pub directory: ArrayVec<Queue, MAX_THREADS>,
}

/// What a thread waits for, if it waits for an object.
pub fn object_of(reason: Reason) -> Option<Object>
    ensures { result ≡ object_of reason }
{
    match reason {
        Reason::Input => Some(Object::Input),
        Reason::Sleep => None,
        Reason::Join(thread) => Some(Object::End(thread)),
        Reason::Lock(mutex) => Some(Object::Mutex(mutex)),
        Reason::Retake(mutex, _) => Some(Object::Mutex(mutex)),
        Reason::Condition(condition, _) => Some(Object::Condition(condition)),
        Reason::Barrier(barrier) => Some(Object::Barrier(barrier)),
        Reason::Read(lock) => Some(Object::RwLock(lock)),
        Reason::Write(lock) => Some(Object::RwLock(lock)),
    }
}

/// Whether two objects are one.
#[tactic(auto, unfolding(crate::specs::Queues::is_same))]
fn is_same(one: Object, other: Object) -> bool
    ensures { result ≡ is_same one other }
{
    match (one, other) {
        (Object::Input, Object::Input) => true,
        (Object::End(thread), Object::End(target)) => thread == target,
        (Object::Mutex(address), Object::Mutex(mutex)) => address == mutex,
        (Object::Condition(address), Object::Condition(condition)) => address == condition,
        (Object::Barrier(address), Object::Barrier(barrier)) => address == barrier,
        (Object::RwLock(address), Object::RwLock(lock)) => address == lock,
        _ => false,
    }
}

/// The place of the object's entry in the directory.
fn place_of(queues: &[Queue], object: Object) -> Option<usize>
    ensures { result ≡ position (is_queue_of object) queues.now }
{
    queues
        .iter()
        .position(|queue| is_same(object, queue.object))
}

/// The object's entry in the directory.
fn queue_of(queues: &[Queue], object: Object) -> Option<Queue>
    ensures { result ≡ find (is_queue_of object) queues.now }
{
    queues
        .iter()
        .copied()
        .find(|queue| is_same(object, queue.object))
}

/// The ends of the object's queue.
#[tactic(auto, using(crate::proofs::Directory::found_ends, crate::proofs::Directory::no_ends_found))]
pub fn ends_of(queues: &[Queue], object: Object) -> Ends
    ensures { result ≡ ends_of object queues.now }
{
    match queue_of(queues, object) {
        Some(queue) => queue.ends,
        None => Ends {
            first: 0,
            last: 0,
            count: 0,
        },
    }
}

/// The object's queue, which isn't empty, has these ends from now on. There must be room where it was empty.
fn store_ends(directory: &mut ArrayVec<Queue, MAX_THREADS>, object: Object, ends: Ends)
    requires directory { IsDirectory directory.old.items }
    requires filled { 0 < ends.count }
    requires room { (ends_of object directory.old.items).count ≡ 0
        → length directory.old.items < 64 }
    ensures directory { IsDirectory directory.new.items }
    ensures ends { IsWithEnds object ends directory.old.items directory.new.items }
    ensures total { total directory.new.items + (ends_of object directory.old.items).count
        ≡ total directory.old.items + ends.count }
{
    match place_of(directory.as_slice(), object) {
        Some(place) => directory[place] = Queue { object, ends },
        None => directory.push(Queue { object, ends }),
    }
}

/// The object's queue is empty from now on, and has no entry.
fn forget_ends(directory: &mut ArrayVec<Queue, MAX_THREADS>, object: Object)
    requires directory { IsDirectory directory.old.items }
    ensures directory { IsDirectory directory.new.items }
    ensures ends { IsWithEnds object no_ends directory.old.items directory.new.items }
    ensures total { total directory.new.items + (ends_of object directory.old.items).count
        ≡ total directory.old.items }
{
    let Some(place) = place_of(directory.as_slice(), object) else {
        return;
    };
    directory.remove(place);
}

/// How many objects of one kind those who wait in a queue may name.
fn named_by(queue: &Queue) -> usize
    ensures value { result ≡ named_by queue.now.object queue.now.ends.count }
    ensures few { result ≤ 255 }
{
    let count = queue.ends.count as usize;
    match queue.object {
        Object::Condition(_) => count,
        _ => count.min(1),
    }
}

/// How many objects of one kind those who wait in these queues may name.
#[tactic(auto, using(crate::proofs::Naming::named_at))]
fn named_by_all(queues: &[Queue]) -> usize
    requires { length queues.now ≤ 64 }
    ensures { result ≡ named_by_all queues.now }
{
    let mut count = 0;
    for place in (0..queues.len()).rev() {
        count += named_by(&queues[place]);
    }
    count
}

impl Queues {
    /// Nobody waits.
    pub fn new() -> Self
        ensures { AreQueues result [] }
    {
        Queues {
            links: Links {
                next: [0; ENTRIES],
                previous: [0; ENTRIES],
            },
            directory: ArrayVec::new(),
        }
    }

    /// At most that many objects of one kind are named by the waits.
    pub fn named_at_most(&self) -> usize
        ensures { (ws : List Wait) → AreQueues self.now ws → result ≡ named_at_most ws }
    {
        named_by_all(self.directory.as_slice())
    }

    /// A thread waits from now on, after all others that wait for the same.
    pub fn push(&mut self, wait: &Wait, reached: &mut u8)
        requires { (ws : List Wait) × MayJoin self.old wait.now ws }
        ensures { (ws : List Wait) → MayJoin self.old wait.now ws
            → AreQueues self.new (ws ++ wait.now ∷ []) }
    {
        let Some(object) = object_of(wait.reason) else {
            return;
        };
        let mut ends = ends_of(self.directory.as_slice(), object);
        link(&mut self.links, &mut ends, wait.thread, reached);
        store_ends(&mut self.directory, object, ends);
    }

    /// The wait of a thread is taken out.
    pub fn take_out(&mut self, wait: &Wait, reached: &mut u8)
        requires { (ws : List Wait) × MayLeave self.old wait.now ws }
        ensures { (ws : List Wait) → MayLeave self.old wait.now ws
            → AreQueues self.new (without wait.now.thread ws) }
    {
        let Some(object) = object_of(wait.reason) else {
            return;
        };
        let mut ends = ends_of(self.directory.as_slice(), object);
        unlink(&mut self.links, &mut ends, wait.thread, reached);
        if ends.count == 0 {
            forget_ends(&mut self.directory, object);
        } else {
            store_ends(&mut self.directory, object, ends);
        }
    }
}

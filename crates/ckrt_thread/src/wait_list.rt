//! The list of waits.
ghost use Rattle.std.specs.Prelude.{◌≡◌, ◌<◌, ◌≤◌, ◌++◌, ◌∷◌, [], List, length, false, slice_get, Some, option_map};
ghost use Rattle.std.specs.List.{list_any, find, filter};
ghost use Rattle.ckrt_thread.specs.declared.records.Wait.{Wait};
ghost use Rattle.ckrt_thread.specs.Waits.{is_for, is_of, without};
ghost use Rattle.ckrt_thread.specs.Links.{IsPath};
ghost use Rattle.ckrt_thread.specs.Queues.{ids, named_at_most};
ghost use Rattle.ckrt_thread.specs.WaitList.{AreEntries, without_first};

use crate::links::{ENTRIES, Ends, Links, entry_of, link, unlink};
use crate::queues::{Queues, ends_of};
use crate::records::{MAX_THREADS, Object, Reason, ThreadId, Wait};
use arrayvec::ArrayVec;
use std::marker::Model;

/// The waits in order of the start of waiting, at most 64: a table with an entry for each thread, by its number, and
/// links from entry to entry, one chain over all waits and one for each object's queue. So the first of a queue is found
/// at once, and a wait in the middle is taken out by its own links.
#[derive(Drop)]
pub struct WaitList {
    /// Each thread's wait. That of a thread which doesn't wait says nothing.
    entries: [Wait; ENTRIES],
    /// Whether a thread waits.
    waiting: [bool; 256],
    /// All waits, in order of the start of waiting.
    links: Links,
    ends: Ends,
    queues: Queues,
    /// How often an entry was reached since the count began.
    reached: u8,
}

impl Model for WaitList {
    ghost use Rattle.std.specs.Prelude.{List};
    ghost use Rattle.ckrt_thread.specs.declared.records.Wait.{Wait};

    ghost Value = { List Wait };

    ghost use Rattle.ckrt_thread.specs.WaitList.{waits_along, AreKept};

    ghost view = { λ a. waits_along a.entries a.links a.ends };

    ghost invariant = { λ a.
        AreKept a.entries a.waiting a.links a.ends a.queues
        (waits_along a.entries a.links a.ends) };
}

/// The waits of that many threads along the links, from a first one on.
fn waits_from(
    entries: &[Wait],
    next: &[ThreadId],
    first: ThreadId,
    count: u8,
) -> ArrayVec<Wait, MAX_THREADS>
    ghost ws: { List Wait }
    requires size { (length entries.now ≡ 65) × (length next.now ≡ 65) }
    requires path { IsPath next.now first (ids ws) }
    requires entries { AreEntries entries.now ws }
    requires count { count ≡ length ws }
    ensures { result.items ≡ ws }
{
    let mut waits = ArrayVec::new();
    let mut thread = first;
    for place in 0..count {
        waits.push(entries[thread as usize]);
        thread = next[thread as usize];
    }
    waits
}

impl WaitList {
    /// Nobody waits.
    pub fn new() -> Self
        ensures { result ≡ [] }
    {
        WaitList {
            entries: [Wait {
                thread: 0,
                reason: Reason::Input,
                deadline: None,
            }; ENTRIES],
            waiting: [false; 256],
            links: Links {
                next: [0; ENTRIES],
                previous: [0; ENTRIES],
            },
            ends: Ends {
                first: 0,
                last: 0,
                count: 0,
            },
            queues: Queues::new(),
            reached: 0,
        }
    }

    /// How many waits there are.
    pub fn len(&self) -> usize
        ensures value { result ≡ length self.now }
        ensures fits { result ≤ 64 }
    {
        self.ends.count as usize
    }

    /// The waits in order.
    pub fn in_order(&self) -> ArrayVec<Wait, MAX_THREADS>
        ensures { result.items ≡ self.now }
    {
        waits_from(
            self.entries.as_slice(),
            self.links.next.as_slice(),
            self.ends.first,
            self.ends.count,
        )
    }

    /// Whether the thread waits.
    pub fn is_waiting(&self, thread: ThreadId) -> bool
        ensures { result ≡ list_any (is_of thread) self.now }
    {
        self.waiting[thread as usize]
    }

    /// The thread's wait.
    pub fn wait_of(&self, thread: ThreadId) -> Option<Wait>
        ensures { result ≡ find (is_of thread) self.now }
    {
        if !self.waiting[thread as usize] {
            return None;
        }
        Some(self.entries[thread as usize])
    }

    /// The first wait for the object.
    pub fn first_for(&self, object: Object) -> Option<Wait>
        ensures { result ≡ find (is_for object) self.now }
    {
        let ends = ends_of(self.queues.directory.as_slice(), object);
        if ends.first == 0 {
            return None;
        }
        Some(self.entries[ends.first as usize])
    }

    /// How many waits are for the object.
    pub fn count_for(&self, object: Object) -> usize
        ensures value { result ≡ length (filter (is_for object) self.now) }
        ensures fits { result ≤ 64 }
    {
        ends_of(self.queues.directory.as_slice(), object).count as usize
    }

    /// At most that many objects of one kind are named by the waits.
    pub fn named_at_most(&self) -> usize
        ensures value { result ≡ named_at_most self.now }
        ensures fits { result ≤ 64 }
    {
        self.queues.named_at_most()
    }

    /// One more wait, after all others. There must be room, and its thread must not wait.
    pub fn push(&mut self, wait: Wait)
        requires number { (0 < wait.thread) × (wait.thread ≤ 64) }
        requires free { list_any (is_of wait.thread) self.old ≡ false }
        requires room { length self.old < 64 }
        ensures items { self.new ≡ self.old ++ wait ∷ [] }
    {
        let place = entry_of(&mut self.reached, wait.thread);
        self.entries[place] = wait;
        self.waiting[wait.thread as usize] = true;
        link(
            &mut self.links,
            &mut self.ends,
            wait.thread,
            &mut self.reached,
        );
        self.queues.push(&wait, &mut self.reached);
    }

    /// Takes the first wait for the object out, and says how often that reached an entry.
    pub fn take_first(&mut self, object: Object) -> Option<(Wait, u8)>
        ensures first { option_map (λ p. p.0) result ≡ find (is_for object) self.old }
        ensures rest { self.new ≡ without_first object self.old }
    {
        self.reached = 0;
        let first = ends_of(self.queues.directory.as_slice(), object).first;
        if first == 0 {
            return None;
        }
        let place = entry_of(&mut self.reached, first);
        let wait = self.entries[place];
        self.take_out(wait.thread);
        Some((wait, self.reached))
    }

    /// Takes the thread's wait out, if there is one.
    pub fn take_out(&mut self, thread: ThreadId)
        ensures { self.new ≡ without thread self.old }
    {
        if !self.waiting[thread as usize] {
            return;
        }
        let place = entry_of(&mut self.reached, thread);
        let wait = self.entries[place];
        self.waiting[thread as usize] = false;
        unlink(&mut self.links, &mut self.ends, thread, &mut self.reached);
        self.queues.take_out(&wait, &mut self.reached);
    }
}

//! The keys of the table, the values that its threads have under them, and their destructors.
ghost use Rattle.std.specs.Prelude.{◌≡◌, ◌<◌, ◌≤◌, ◌%◌, ◌-◌, true, false, map, Some, None, IfSome};
ghost use Rattle.std.specs.List.{find, list_all, range_with_len};
ghost use Rattle.ckrt_thread.specs.State.{is_live, is_waiting, thread_of, change_thread, change_live};
ghost use Rattle.ckrt_thread.specs.Cancellation.{is_unwinding};
ghost use Rattle.ckrt_thread.specs.Keys.{is_key, is_of_key, are_of_keys, data_of};
ghost use Rattle.ckrt_thread.specs.Destructors.{is_to_destroy, first_to_destroy, turn_in, rest_of_round, new_round, next_turn, at_destructor};
ghost use Rattle.ckrt_thread.specs.Contents.{with_keys, has_values_of, are_all_of_keys};
ghost use Rattle.ckrt_thread.specs.Unwinding.{turn_of, next_destructor};
ghost use Rattle.ckrt_thread.specs.ThreadKeys.{with_key_of, without_key_of, with_value_of, value_of};

use crate::keys::{DESTRUCTOR_ROUNDS, Key, Keys, MAX_KEYS, SpecificData, Turn};
use crate::records::{Thread, ThreadId};
use crate::table::Threads;

// Values and keys.

/// Whether the number is a key, or nothing is under it.
fn is_of_key(keys: &Keys, specific: &SpecificData, key: Key) -> bool
    ensures { result ≡ is_of_key keys.now specific.now key }
{
    keys.destructor(u32::from(key)).is_some() || specific.value(key) == 0
}

/// Whether there are values only under keys.
fn are_all_of_keys(keys: &Keys, specific: &SpecificData) -> bool
    ensures { result ≡ are_of_keys keys.now specific.now }
{
    for key in 0..MAX_KEYS as Key {
        if !is_of_key(keys, specific, key) {
            return false;
        }
    }
    true
}

/// Whether a thread has values only under keys that there are.
pub fn are_of_keys(keys: &Keys, thread: &Thread) -> bool
    ensures { result ≡ are_of_keys keys.now (data_of (Some thread.now)) }
{
    match thread {
        Thread::Ended(_) => are_all_of_keys(keys, &SpecificData::new()),
        Thread::Live(live) => are_all_of_keys(keys, &live.specific),
    }
}

/// Whether what stands for a number has values only under keys that there are.
fn has_values_of(keys: &Keys, slot: &Option<Thread>) -> bool
    ensures { result ≡ has_values_of keys.now slot.now }
{
    match slot {
        Some(thread) => are_of_keys(keys, thread),
        None => are_all_of_keys(keys, &SpecificData::new()),
    }
}

/// Whether all of these have values only under keys that there are.
fn have_values_of(keys: &Keys, slots: &[Option<Thread>]) -> bool
    ensures { result ≡ list_all (has_values_of keys.now) slots.now }
{
    slots.iter().all(|slot| has_values_of(keys, slot))
}

// Whose turn it is.

/// Whether the key has a destructor, and the thread a value under it.
fn is_to_destroy(keys: &Keys, specific: &SpecificData, key: Key) -> bool
    ensures { result ≡ is_to_destroy keys.now specific.now key }
{
    keys.destructor(u32::from(key)).unwrap_or(0) != 0 && specific.value(key) != 0
}

/// The first such key from a given one on.
fn first_to_destroy(keys: &Keys, specific: &SpecificData, from: Key) -> Option<Key>
    ensures { result ≡ first_to_destroy keys.now specific.now from }
{
    for key in from..MAX_KEYS as Key {
        if is_to_destroy(keys, specific, key) {
            return Some(key);
        }
    }
    None
}

/// The destructor of a key, in a round.
fn turn_in(round: u8, key: Option<Key>) -> Option<Turn>
    ensures { result ≡ turn_in round key }
{
    match key {
        Some(key) => Some(Turn { round, key }),
        None => None,
    }
}

/// The next turn of the round that the thread is in.
fn rest_of_round(keys: &Keys, specific: &SpecificData) -> Option<Turn>
    ensures { result ≡ rest_of_round keys.now specific.now }
{
    if specific.round == 0 {
        return None;
    }
    turn_in(
        specific.round,
        first_to_destroy(keys, specific, specific.next_key),
    )
}

/// The first turn of the next round.
fn new_round(keys: &Keys, specific: &SpecificData) -> Option<Turn>
    ensures { result ≡ new_round keys.now specific.now }
{
    if specific.round >= DESTRUCTOR_ROUNDS {
        return None;
    }
    turn_in(specific.round + 1, first_to_destroy(keys, specific, 0))
}

/// The next turn of a thread.
fn next_turn(keys: &Keys, specific: &SpecificData) -> Option<Turn>
    ensures { result ≡ next_turn keys.now specific.now }
{
    match rest_of_round(keys, specific) {
        Some(turn) => Some(turn),
        None => new_round(keys, specific),
    }
}

impl Threads {
    // Keys and values.

    /// The keys of the program.
    pub fn keys(&self) -> &Keys
        ensures { result.now ≡ self.now.keys }
    {
        &self.keys
    }

    /// The value of a thread under a key, 0 where it set none.
    #[tactic(auto, using(crate::proofs::KeyLemmas::no_value))]
    pub fn value(&self, thread: ThreadId, key: Key) -> u32
        ensures { result ≡ value_of thread key self.now }
    {
        match self.thread(u32::from(thread)) {
            Some(Thread::Live(live)) => live.specific.value(key),
            _ => 0,
        }
    }

    /// The number is a key from now on, with a destructor: 0 for none. Where it was none, no thread has a value under it.
    pub fn add_key(&mut self, key: Key, destructor: u32)
        requires on { self.old.keys.is_on ≡ true }
        requires number { key < MAX_KEYS }
        requires aligned { destructor % 4 ≡ 0 }
        ensures { self.new ≡ with_key_of key destructor self.old }
    {
        self.keys.add(key, destructor);
    }

    /// The number is no key from now on, and no thread has a value under it.
    pub fn remove_key(&mut self, key: Key)
        requires { key < MAX_KEYS }
        ensures { self.new ≡ without_key_of key self.old }
    {
        self.slots.clear_key(key);
        self.keys.remove(key);
    }

    /// A thread that has not ended has this value under a key.
    pub fn set_value(&mut self, thread: ThreadId, key: Key, value: u32)
        requires live { is_live self.old thread ≡ true }
        requires key { is_key self.old.keys key ≡ true }
        ensures { self.new ≡ with_value_of thread key value self.old }
    {
        self.slots.set_value(thread, key, value);
    }

    /// The keys of the program become these. Public for the crates that build a table row by row, from saved bytes or from
    /// another table: no call of a program switches keys on or off. False, and nothing changes, where a thread has a value under a number that is none of them.
    pub fn set_keys(&mut self, keys: Keys) -> bool
        ensures exact { result ≡ are_all_of_keys keys self.old }
        ensures set { result ≡ true → self.new ≡ with_keys keys self.old }
        ensures refused { result ≡ false → self.new ≡ self.old }
    {
        if !have_values_of(&keys, self.slots()) {
            return false;
        }
        self.put_keys(keys);
        true
    }

    /// The keys of the program become these, under which alone the threads have values.
    fn put_keys(&mut self, keys: Keys)
        requires { are_all_of_keys keys self.old ≡ true }
        ensures { self.new ≡ with_keys keys self.old }
    {
        keys.known();
        self.keys = keys;
    }

    // Destructors.

    /// Whose destructor a thread runs that has no handler left.
    fn turn_of(&self, thread: ThreadId) -> Option<Turn>
        requires { is_live self.now thread ≡ true }
        ensures { result ≡ turn_of thread self.now }
    {
        let live = self.live(thread);
        if live.cancellation.unwinding.is_none() {
            return None;
        }
        next_turn(&self.keys, &live.specific)
    }

    /// The thread goes to the destructor whose turn it is.
    fn destroy(&mut self, thread: ThreadId, turn: Turn)
        requires live { is_live self.old thread ≡ true }
        requires turn { turn_of thread self.old ≡ Some turn }
        ensures { self.new
            ≡ record self.old {
              threads = change_thread (at_destructor self.old.keys turn) thread self.old.threads;
            } }
    {
        self.slots.destroy(thread, &self.keys, turn);
    }

    /// A thread, which does not wait and has no handler left, goes to its next destructor. With none left it ends with
    /// the value that it unwinds with.
    pub(crate) fn next_destructor(&mut self, thread: ThreadId)
        requires live { is_live self.old thread ≡ true }
        requires free { is_waiting self.old thread ≡ false }
        ensures { self.new ≡ next_destructor thread self.old }
    {
        match self.turn_of(thread) {
            Some(turn) => self.destroy(thread, turn),
            None => {
                let value = self.cancellation(thread).unwinding.unwrap_or(0);
                self.finish(thread, value);
            }
        }
    }
}

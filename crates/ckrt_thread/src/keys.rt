//! The keys of a program, and what a thread has under them (POSIX.1-2017, `pthread_key_create` and
//! `pthread_setspecific`).
ghost use Rattle.std.specs.Prelude.{◌≡◌, ◌<◌, ◌≤◌, ◌%◌, true, length, is_none, Some, None, IfSome};
ghost use Rattle.std.specs.List.{list_all, position};
ghost use Rattle.ckrt_thread.specs.Keys.{no_keys, keys_off, all_keys, keys_if_proper, is_aligned_key, key_of, free_key, with_key, no_data, value_under, is_proper_data, are_proper_keys};

use std::marker::Model;

/// How many keys a program may have at a time (this project's choice).
pub const MAX_KEYS: usize = 32;

/// How many rounds of destructors a thread goes through at most (POSIX.1-2017, `PTHREAD_DESTRUCTOR_ITERATIONS`, which
/// may be larger: this project's choice).
pub const DESTRUCTOR_ROUNDS: u8 = 4;

/// The number of a key, 0 to 31.
pub type Key = u8;

/// What a thread has under the keys of its program, and how far it is with their destructors.
#[derive(Clone, Copy, Drop)]
pub struct SpecificData {
    /// Its value under each key, 0 where it set none.
    pub values: [u32; MAX_KEYS],
    /// The round of destructors that it is in, 1 to 4; 0 before the first.
    pub round: u8,
    /// The key with which the round goes on, 0 to 32.
    pub next_key: u8,
}

impl SpecificData {
    /// No value, before the first round.
    pub fn new() -> Self
        ensures { result ≡ no_data }
    {
        SpecificData {
            values: [0; MAX_KEYS],
            round: 0,
            next_key: 0,
        }
    }

    /// Whether a thread may have this: it is in a round, of at most 4, only where it unwinds, and the round goes on with a
    /// key or is over.
    pub fn is_proper(&self, unwinds: bool) -> bool
        ensures { result ≡ is_proper_data unwinds self.now }
    {
        let _values = self.values.as_slice();
        if self.round > DESTRUCTOR_ROUNDS || self.next_key as usize > MAX_KEYS {
            return false;
        }
        if self.round == 0 {
            self.next_key == 0
        } else {
            unwinds
        }
    }

    /// The value under a key, 0 where none was set.
    pub fn value(&self, key: Key) -> u32
        ensures { result ≡ value_under key self.now }
    {
        self.values.get(key as usize).copied().unwrap_or(0)
    }
}

/// Whose destructor a thread runs.
#[derive(Clone, Copy, Drop)]
pub struct Turn {
    /// The round, 1 to 4.
    pub round: u8,
    /// The key.
    pub key: Key,
}

/// The keys of a program, each with the address of its destructor: 0 where it has none.
#[derive(Drop)]
pub struct Keys {
    is_on: bool,
    destructors: [Option<u32>; MAX_KEYS],
}

impl Model for Keys {
    ghost use Rattle.std.specs.Prelude.{◌≡◌, true};
    ghost use Rattle.ckrt_thread.specs.Keys.{KeyTable, are_proper_keys};

    ghost Value = { KeyTable };

    ghost view = { λ a. record { is_on = a.is_on; destructors = a.destructors } };

    ghost invariant = { λ a.
        are_proper_keys (record { is_on = a.is_on; destructors = a.destructors }) ≡ true };
}

/// The first place that stands for no key.
fn first_free(keys: &[Option<u32>]) -> Option<usize>
    ensures place { result ≡ position is_none keys.now }
    ensures within { IfSome result (λ i. i < length keys.now) }
{
    keys.iter().position(|slot| slot.is_none())
}

/// Whether the destructor is none, or a multiple of 4.
fn is_aligned(key: &Option<u32>) -> bool
    ensures { result ≡ is_aligned_key key.now }
{
    match key {
        Some(destructor) => destructor % 4 == 0,
        None => true,
    }
}

/// Whether each destructor is a multiple of 4.
fn are_aligned(keys: &[Option<u32>]) -> bool
    ensures { result ≡ list_all is_aligned_key keys.now }
{
    keys.iter().all(|key| is_aligned(key))
}

/// Whether no number stands for a key.
fn are_none(keys: &[Option<u32>]) -> bool
    ensures { result ≡ list_all is_none keys.now }
{
    keys.iter().all(|key| key.is_none())
}

impl Keys {
    /// No key yet.
    pub fn new() -> Self
        ensures { result ≡ no_keys }
    {
        Keys {
            is_on: true,
            destructors: [None; MAX_KEYS],
        }
    }

    /// Keys are off: the program has no such calls.
    pub fn off() -> Self
        ensures { result ≡ keys_off }
    {
        Keys {
            is_on: false,
            destructors: [None; MAX_KEYS],
        }
    }

    /// Each number is a key, without a destructor: for a table of threads that is built before its keys are known.
    pub fn all() -> Self
        ensures { result ≡ all_keys }
    {
        Keys {
            is_on: true,
            destructors: [Some(0); MAX_KEYS],
        }
    }

    /// These keys: whether there may be any, and what each number stands for. `None` where no program has them: a
    /// destructor is a multiple of 4, and there is no key where keys are off.
    pub fn with(is_on: bool, destructors: [Option<u32>; MAX_KEYS]) -> Option<Self>
        ensures { result ≡ keys_if_proper (record { is_on = is_on; destructors = destructors }) }
    {
        let proper = are_aligned(destructors.as_slice());
        if !proper || !is_on && !are_none(destructors.as_slice()) {
            return None;
        }
        Some(Keys { is_on, destructors })
    }

    /// What always holds of keys, for a proof.
    pub fn known(&self)
        ensures { are_proper_keys self.now ≡ true }
    {
        let _ = &self.is_on;
    }

    /// Whether the program may have keys.
    pub fn is_on(&self) -> bool
        ensures { result ≡ self.now.is_on }
    {
        self.is_on
    }

    /// What each number from 0 to 31 stands for: a key, by the address of its destructor, or nothing.
    pub fn destructors(&self) -> &[Option<u32>]
        ensures keys { result.now ≡ self.now.destructors }
        ensures size { length result.now ≡ MAX_KEYS }
    {
        self.destructors.as_slice()
    }

    /// The destructor of a key, if there is such a key.
    pub fn destructor(&self, key: u32) -> Option<u32>
        ensures key { result ≡ key_of self.now key }
        ensures number { IfSome result (λ _. key < MAX_KEYS) }
    {
        self.destructors.get(key as usize).copied().flatten()
    }

    /// The least number that is no key.
    pub fn free_key(&self) -> Option<Key>
        ensures key { result ≡ free_key self.now }
        ensures number { IfSome result (λ k. k < MAX_KEYS) }
    {
        match first_free(self.destructors.as_slice()) {
            Some(place) => Some(place as Key),
            None => None,
        }
    }

    /// The number is a key from now on, with a destructor.
    pub fn add(&mut self, key: Key, destructor: u32)
        requires on { self.old.is_on ≡ true }
        requires number { key < MAX_KEYS }
        requires aligned { destructor % 4 ≡ 0 }
        ensures { self.new ≡ with_key key (Some destructor) self.old }
    {
        self.destructors[key as usize] = Some(destructor);
    }

    /// The number is no key from now on.
    pub fn remove(&mut self, key: Key)
        requires { key < MAX_KEYS }
        ensures { self.new ≡ with_key key None self.old }
    {
        self.destructors[key as usize] = None;
    }
}

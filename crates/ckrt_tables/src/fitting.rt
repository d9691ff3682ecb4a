//! The numbers of a program fit the types that the code has for them, and so the fields of saved tables: whatever
//! well-formed tables and output are at hand, they can be saved. Nothing here does anything when it runs.
ghost use Rattle.std.specs.Prelude.{◌≡◌, ◌==◌, Bool, true, length};
ghost use Rattle.std.specs.List.{list_all};
ghost use Rattle.ckrt_thread.specs.State.{is_proper_live};
ghost use Rattle.ckrt_calls.specs.WellFormed.{IsWellFormed};
ghost use Rattle.ckrt_tables.specs.Encoding.{IsHeld};
ghost use Rattle.ckrt_tables.specs.Savable.{CanBeSaved, if_there, is_byte, is_half, is_word, is_long, fit_registers, fits_data, fit_keys, fits_thread, fits_wait, fits_status, is_without_data, is_slot_without_data, is_without_keys};
ghost use Rattle.ckrt_thread.specs.declared.records.Thread.TheVariants as thread;

use crate::encoding::Held;
use ckrt_barrier::Barrier;
use ckrt_calls::{Status, Tables};
use ckrt_mutex::Mutex;
use ckrt_objects::Entry;
use ckrt_registers::Regs;
use ckrt_rwlock::RwLock;
use ckrt_thread::{Handler, Keys, Live, SpecificData, Thread, Threads, Wait};

/// What has numbers that fit the fields in which they are saved.
trait Fitting {
    /// What a well-formed table says of it.
    ghost is_proper: { Self → Bool };

    ghost fits: { Self → Bool };

    /// That they fit, for a proof.
    fn known_fit(&self)
        requires { is_proper self.now ≡ true }
        ensures { fits self.now ≡ true };
}

/// That the numbers of all of these fit, for a proof.
fn known_all<T: Fitting>(items: &[T])
    requires { list_all T.is_proper items.now ≡ true }
    ensures { list_all T.fits items.now ≡ true }
{
    for item in items {
        item.known_fit();
    }
}

fn known_bytes(bytes: &[u8])
    ensures { list_all is_byte bytes.now ≡ true }
{}

fn known_halves(numbers: &[u16])
    ensures { list_all is_half numbers.now ≡ true }
{}

fn known_word_if(number: Option<u32>)
    ensures { if_there is_word number ≡ true }
{}

fn known_registers(regs: &Regs)
    ensures { fit_registers regs.now ≡ true }
{
    regs.known();
    let _pc = regs.pc();
}

impl Fitting for Handler {
    ghost use Rattle.std.specs.Prelude.{true};
    ghost use Rattle.ckrt_tables.specs.Savable.{fits_handler};

    ghost is_proper = { λ h. true };

    ghost fits = { fits_handler };

    fn known_fit(&self) {
        let _routine = self.routine;
        let _argument = self.argument;
    }
}

fn known_words(words: &[u32])
    ensures { list_all is_word words.now ≡ true }
{}

fn known_data(specific: &SpecificData)
    ensures { fits_data specific.now ≡ true }
{
    let _round = specific.round;
    let _next_key = specific.next_key;
    known_words(specific.values.as_slice());
}

impl Fitting for Option<u32> {
    ghost use Rattle.std.specs.Prelude.{true};
    ghost use Rattle.ckrt_tables.specs.Savable.{if_there, is_word};

    ghost is_proper = { λ o. true };

    ghost fits = { if_there is_word };

    fn known_fit(&self) {
        known_word_if(*self);
    }
}

fn known_keys(keys: &Keys)
    ensures { fit_keys keys.now ≡ true }
{
    known_all(keys.destructors());
}

/// Whether the thread has nothing under a key, and is in no round of destructors.
fn is_without_data(specific: &SpecificData) -> bool
    ensures { result ≡ is_without_data specific.now }
{
    specific.round == 0 && specific.next_key == 0 && are_zeros(specific.values.as_slice())
}

/// Whether all of these are 0.
fn are_zeros(values: &[u32]) -> bool
    ensures { result ≡ list_all (λ v. v == 0) values.now }
{
    values.iter().all(|value| *value == 0)
}

/// Whether what stands for a number has nothing under a key, and is in no round of destructors.
fn is_slot_without_data(slot: &Option<Thread>) -> bool
    ensures { result ≡ is_slot_without_data slot.now }
{
    match slot {
        Some(Thread::Live(live)) => is_without_data(&live.specific),
        _ => true,
    }
}

/// Whether all of these are so.
fn are_without_data(slots: &[Option<Thread>]) -> bool
    ensures { result ≡ list_all is_slot_without_data slots.now }
{
    slots.iter().all(|slot| is_slot_without_data(slot))
}

/// Whether the program has no keys, and no thread has anything under one.
pub fn is_without_keys(threads: &Threads) -> bool
    ensures { result ≡ is_without_keys threads.now }
{
    !threads.keys().is_on() && are_without_data(threads.slots())
}

fn known_live(live: &Live)
    requires { is_proper_live live.now ≡ true }
    ensures { fits_thread (thread.Live live.now) ≡ true }
{
    known_registers(&live.regs);
    known_word_if(live.cancellation.unwinding);
    known_all(live.handlers.as_slice());
    known_data(&live.specific);
}

impl Fitting for Option<Thread> {
    ghost use Rattle.ckrt_thread.specs.State.{is_proper_slot};
    ghost use Rattle.ckrt_tables.specs.Savable.{fits_slot};

    ghost is_proper = { is_proper_slot };

    ghost fits = { fits_slot };

    fn known_fit(&self) {
        match self {
            Some(Thread::Live(live)) => known_live(live),
            Some(Thread::Ended(value)) => known_word_if(Some(*value)),
            None => {}
        }
    }
}

fn known_wait(wait: Wait)
    ensures { fits_wait wait ≡ true }
{}

impl Fitting for Wait {
    ghost use Rattle.std.specs.Prelude.{true};
    ghost use Rattle.ckrt_tables.specs.Savable.{fits_wait};

    ghost is_proper = { λ w. true };

    ghost fits = { fits_wait };

    fn known_fit(&self) {
        known_wait(*self);
    }
}

impl Fitting for Entry<Mutex> {
    ghost use Rattle.ckrt_mutex.specs.Mutex.{is_proper};
    ghost use Rattle.ckrt_tables.specs.Savable.{fits_mutex};

    ghost is_proper = { λ e. is_proper e.value };

    ghost fits = { fits_mutex };

    fn known_fit(&self) {
        let _address = self.address;
    }
}

impl Fitting for Entry<Barrier> {
    ghost use Rattle.std.specs.Prelude.{true};
    ghost use Rattle.ckrt_tables.specs.Savable.{fits_barrier};

    ghost is_proper = { λ e. true };

    ghost fits = { fits_barrier };

    fn known_fit(&self) {
        let _address = self.address;
        let _count = self.value.count;
    }
}

impl Fitting for Entry<RwLock> {
    ghost use Rattle.ckrt_rwlock.specs.RwLock.{is_proper};
    ghost use Rattle.ckrt_tables.specs.Savable.{fits_rwlock};

    ghost is_proper = { λ e. is_proper e.value };

    ghost fits = { fits_rwlock };

    fn known_fit(&self) {
        let _address = self.address;
    }
}

fn known_status(status: Status)
    ensures { fits_status status ≡ true }
{}

/// Whatever well-formed tables and output are at hand, they can be saved, for a proof.
pub fn known_savable(tables: &Tables, held: &Held, version: u32)
    requires well_formed { IsWellFormed tables.now }
    requires held { IsHeld held.now.items }
    requires said { version ≡ 1 → is_without_keys tables.now.threads ≡ true }
    ensures { CanBeSaved version tables.now.threads.hart_count tables.now held.now.items }
{
    known_all(tables.threads.slots());
    known_all(tables.threads.waits().as_slice());
    known_keys(tables.threads.keys());
    known_all(tables.mutexes.rows().as_slice());
    known_all(tables.barriers.rows());
    known_all(tables.rwlocks.rows());
    known_status(tables.status);
    let (first, second) = tables.input.as_slices();
    known_bytes(first);
    known_bytes(second);
    let (first, second) = held.as_slices();
    known_bytes(first);
    known_bytes(second);
}

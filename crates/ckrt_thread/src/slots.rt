//! The slots of the table, and the threads that begin in them.
ghost use Rattle.std.specs.Prelude.{◌≡◌, ◌<◌, ◌≤◌, length, map, drop, is_none, slice_get, slice_set, replicate, vec_capacity, None, IfOk};
ghost use Rattle.std.specs.Option.{option_flatten, option_copied};
ghost use Rattle.std.specs.List.{position, list_any};
ghost use Rattle.ckrt_thread.specs.Cancellation.{handlers_of, with_cancellation, pushing, popping, entering};
ghost use Rattle.ckrt_thread.specs.State.{is_live_thread, change_live, change_thread, with_word, with_regs, first_of_program};
ghost use Rattle.ckrt_thread.specs.Rows.{new_thread, detached};
ghost use Rattle.ckrt_thread.specs.Keys.{setting};
ghost use Rattle.ckrt_thread.specs.Destructors.{at_destructor};

use crate::abi::{A0, PROGRAM_START, RA, RETURN_GATE, SP, UNWIND_GATE};
use crate::keys::{Key, Keys, MAX_KEYS, SpecificData, Turn};
use crate::records::{Cancellation, Handler, Live, MAX_HANDLERS, MAX_THREADS, Thread, ThreadId};
use arrayvec::ArrayVec;
use ckrt_registers::Regs;
use std::alloc::{AllocError, Global};
use std::marker::Model;

/// How many slots there are: one for each thread's number, and slot 0.
const SLOTS: usize = MAX_THREADS + 1;

/// What stands for each number from 0 to 64: a thread, or nothing. Only `new` takes memory.
#[derive(Drop)]
pub struct Slots {
    slots: Vec<Option<Thread>>,
}

impl Model for Slots {
    ghost use Rattle.std.specs.Prelude.{List, Option, length, vec_capacity, ◌≡◌, ◌≤◌};
    ghost use Rattle.ckrt_thread.specs.declared.records.Thread.{Thread};

    ghost Value = { List (Option Thread) };

    ghost view = { λ a. a.slots.items };

    ghost invariant = { λ a. (length a.slots.items ≡ 65) × (65 ≤ vec_capacity a.slots) };
}

/// That many free slots. The only error is that the memory for them is refused.
#[tactic(auto, using(crate::proofs::SlotLemmas::one_more))]
fn free_slots(alloc: Global, count: usize) -> Result<Vec<Option<Thread>>, AllocError>
    ensures items { IfOk result (λ table. table.items ≡ replicate count None) }
    ensures room { IfOk result (λ table. count ≤ vec_capacity table) }
{
    let mut table = Vec::with_capacity(alloc, count)?;
    for _ in 0..count {
        if table.push(None).is_err() {
            return Err(AllocError);
        }
    }
    Ok(table)
}

impl Slots {
    /// All slots are free. The only error is that the memory for them is refused.
    pub fn new(alloc: Global) -> Result<Self, AllocError>
        ensures { IfOk result (λ slots. slots ≡ replicate 65 None) }
    {
        Ok(Slots {
            slots: free_slots(alloc, SLOTS)?,
        })
    }

    /// The slots, from that of 0 on.
    pub fn as_slice(&self) -> &[Option<Thread>]
        ensures slots { result.now ≡ self.now }
        ensures size { length result.now ≡ 65 }
    {
        self.slots.as_slice()
    }

    /// What stands for the number, if a thread does.
    pub fn get(&self, id: usize) -> Option<&Thread>
        ensures { option_copied result ≡ option_flatten (slice_get self.now id) }
    {
        match self.slots.get(id) {
            Some(Some(thread)) => Some(thread),
            _ => None,
        }
    }

    /// The number stands for this from now on.
    pub fn set(&mut self, id: ThreadId, slot: Option<Thread>)
        requires { id < length self.old }
        ensures { self.new ≡ slice_set self.old id slot }
    {
        self.slots[id as usize] = slot;
    }

    /// Writes one register of a thread that has not ended.
    #[tactic(auto, using(crate::proofs::SlotLemmas::slot_read))]
    pub fn set_word(&mut self, thread: ThreadId, register: u8, value: u32)
        requires register { register < 32 }
        requires within { thread < length self.old }
        ensures { self.new ≡ change_thread (with_word register value) thread self.old }
    {
        let slot = &mut self.slots[thread as usize];
        if let Some(Thread::Live(live)) = slot {
            live.regs.put(register, value);
        }
    }

    /// Writes the registers of a thread that has not ended.
    #[tactic(auto, using(crate::proofs::SlotLemmas::slot_read))]
    pub fn set_regs(&mut self, thread: ThreadId, regs: &Regs)
        requires within { thread < length self.old }
        ensures { self.new ≡ change_thread (with_regs regs.now) thread self.old }
    {
        let slot = &mut self.slots[thread as usize];
        if let Some(Thread::Live(live)) = slot {
            live.regs = *regs;
        }
    }

    /// A thread that has not ended is detached from now on.
    #[tactic(auto, using(crate::proofs::SlotLemmas::slot_read))]
    pub fn detach(&mut self, thread: ThreadId)
        requires within { thread < length self.old }
        ensures { self.new ≡ change_thread detached thread self.old }
    {
        let slot = &mut self.slots[thread as usize];
        if let Some(Thread::Live(live)) = slot {
            live.detached = true;
        }
    }

    /// Writes the cancellation of a thread that has not ended.
    #[tactic(auto, using(crate::proofs::SlotLemmas::slot_read))]
    pub fn set_cancellation(&mut self, thread: ThreadId, cancellation: &Cancellation)
        requires within { thread < length self.old }
        ensures { self.new ≡ change_thread (with_cancellation cancellation.now) thread self.old }
    {
        let slot = &mut self.slots[thread as usize];
        if let Some(Thread::Live(live)) = slot {
            live.cancellation = *cancellation;
        }
    }

    /// A thread that has not ended has one handler more. It must have room for it.
    #[tactic(auto, using(crate::proofs::SlotLemmas::slot_read))]
    pub fn push_handler(&mut self, thread: ThreadId, handler: Handler)
        requires within { thread < length self.old }
        requires room { length (handlers_of (option_flatten (slice_get self.old thread)))
            < MAX_HANDLERS }
        ensures { self.new ≡ change_thread (pushing handler) thread self.old }
    {
        let slot = &mut self.slots[thread as usize];
        if let Some(Thread::Live(live)) = slot {
            live.handlers.push(handler);
        }
    }

    /// A thread that has not ended has its newest handler no more.
    #[tactic(auto, using(crate::proofs::SlotLemmas::slot_read))]
    pub fn pop_handler(&mut self, thread: ThreadId)
        requires within { thread < length self.old }
        ensures { self.new ≡ change_thread popping thread self.old }
    {
        let slot = &mut self.slots[thread as usize];
        if let Some(Thread::Live(live)) = slot {
            live.handlers.pop();
        }
    }

    /// A thread that has not ended goes to the routine of a handler, which returns to an address.
    #[tactic(auto, using(crate::proofs::SlotLemmas::slot_read))]
    pub fn enter(&mut self, thread: ThreadId, handler: Handler, back: u32)
        requires within { thread < length self.old }
        ensures { self.new ≡ change_thread (entering back handler) thread self.old }
    {
        let slot = &mut self.slots[thread as usize];
        if let Some(Thread::Live(live)) = slot {
            live.regs.set_pc(handler.routine);
            live.regs.put(RA, back);
            live.regs.put(A0, handler.argument);
        }
    }

    /// A thread that has not ended has this value under a key.
    #[tactic(auto, using(crate::proofs::SlotLemmas::slot_read))]
    pub fn set_value(&mut self, thread: ThreadId, key: Key, value: u32)
        requires within { thread < length self.old }
        requires key { key < MAX_KEYS }
        ensures { self.new ≡ change_thread (setting key value) thread self.old }
    {
        let slot = &mut self.slots[thread as usize];
        if let Some(Thread::Live(live)) = slot {
            live.specific.values[key as usize] = value;
        }
    }

    /// No thread has a value under this key.
    pub fn clear_key(&mut self, key: Key)
        requires { key < MAX_KEYS }
        ensures { self.new ≡ map (change_live (setting key 0)) self.old }
    {
        clear_values(self.slots.as_mut_slice(), key);
    }

    /// A thread that has not ended goes to the destructor whose turn it is.
    #[tactic(auto, using(crate::proofs::SlotLemmas::slot_read))]
    pub fn destroy(&mut self, thread: ThreadId, keys: &Keys, turn: Turn)
        requires within { thread < length self.old }
        requires key { turn.key < MAX_KEYS }
        ensures { self.new ≡ change_thread (at_destructor keys.now turn) thread self.old }
    {
        let slot = &mut self.slots[thread as usize];
        if let Some(Thread::Live(live)) = slot {
            destroy_value(live, keys, turn);
        }
    }
}

/// No thread has a value under this key.
#[tactic(auto, using(std::proofs::lemmas::List::Edits::map_over_more))]
fn clear_values(slots: &mut [Option<Thread>], key: Key)
    requires { key < MAX_KEYS }
    ensures { slots.new ≡ map (change_live (setting key 0)) slots.old }
{
    for slot in slots.iter_mut() {
        clear_value(slot, key);
    }
}

/// A thread has no value under this key.
fn clear_value(slot: &mut Option<Thread>, key: Key)
    requires { key < MAX_KEYS }
    ensures { slot.new ≡ change_live (setting key 0) slot.old }
{
    if let Some(Thread::Live(live)) = slot {
        live.specific.values[key as usize] = 0;
    }
}

/// The thread goes to the destructor whose turn it is, with its value, which it has no more.
fn destroy_value(live: &mut Live, keys: &Keys, turn: Turn)
    requires { turn.key < MAX_KEYS }
    ensures { live.new ≡ at_destructor keys.now turn live.old }
{
    let value = live.specific.value(turn.key);
    live.specific.values[turn.key as usize] = 0;
    live.specific.round = turn.round;
    live.specific.next_key = turn.key + 1;
    live.regs
        .set_pc(keys.destructor(u32::from(turn.key)).unwrap_or(0));
    live.regs.put(RA, UNWIND_GATE);
    live.regs.put(A0, value);
}

/// The thread that a program begins with.
pub fn first_thread(stack: u32) -> Thread
    ensures { result ≡ first_of_program stack }
{
    let mut regs = Regs::new(PROGRAM_START);
    regs.put(RA, RETURN_GATE);
    regs.put(SP, stack);
    Thread::Live(Live {
        regs,
        initial: true,
        detached: false,
        cancellation: Cancellation::new(),
        handlers: ArrayVec::new(),
        specific: SpecificData::new(),
    })
}

/// A thread that begins at start.
pub fn new_thread(start: u32, arg: u32, stack: u32, detached: bool) -> Thread
    ensures { result ≡ new_thread start arg stack detached }
{
    let mut regs = Regs::new(start);
    regs.put(RA, RETURN_GATE);
    regs.put(SP, stack);
    regs.put(A0, arg);
    Thread::Live(Live {
        regs,
        initial: false,
        detached,
        cancellation: Cancellation::new(),
        handlers: ArrayVec::new(),
        specific: SpecificData::new(),
    })
}

/// Whether there is a thread, and it has not ended.
fn is_live_slot(slot: &Option<Thread>) -> bool
    ensures { result ≡ is_live_thread slot.now }
{
    matches!(slot, Some(Thread::Live(_)))
}

/// Whether a slot has a thread that has not ended.
pub fn any_live(table: &[Option<Thread>]) -> bool
    ensures { result ≡ list_any is_live_thread table.now }
{
    table.iter().any(|slot| is_live_slot(slot))
}

/// The place of the first slot that is free, less 1; slot 0 does not count.
pub fn free_slot(table: &[Option<Thread>]) -> Option<usize>
    requires { 0 < length table.now }
    ensures { result ≡ position is_none (drop 1 table.now) }
{
    let (_, slots) = table.split_at(1);
    slots.iter().position(|slot| slot.is_none())
}

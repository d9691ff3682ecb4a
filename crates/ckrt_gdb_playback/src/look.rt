//! What is answered while nobody moves.
ghost use Rattle.std.specs.Prelude.{◌≡◌, ◌+◌, ◌≤◌, ◌++◌, ◌⊎◌, [], IsOk, IfSome, OnOk, is_some, length};
ghost use Rattle.arrayvec.specs.ArrayVec.{array_vec_len};
ghost use Rattle.ckrt_thread.specs.State.{thread_of};
ghost use Rattle.ckrt_gdb_forms.specs.Numbers.{hex_text};
ghost use Rattle.ckrt_gdb_forms.specs.Replies.{reply_text};
ghost use Rattle.ckrt_gdb_playback.specs.Look.{absent_text, done_text, fitting, ids_text, memory_text, registers_bytes, registers_of, registers_text};
ghost use Rattle.ckrt_gdb_playback.specs.Standing.{standing_text};
ghost use Rattle.ckrt_gdb_playback.specs.Requests.{constant_of, description_text, last_text, look_of, meant, memory_look_of, thread_text, threads_look_of};

use crate::bytes::{Bytes, push_words};
use crate::description::DESCRIPTION;
use crate::memory::memory_bytes;
use crate::standing::push_standing;
use crate::threads::{is_known, is_listed, is_shown, listed_ids};
use crate::view::View;
use arrayvec::ArrayVec;
use ckrt_calls::Tables;
use ckrt_gdb_forms::{Choice, Full, Payload, Reply, Request, write_reply};
use ckrt_machine::Machine;
use ckrt_memory::Memory;
use ckrt_registers::Regs;
use ckrt_thread::{Thread, ThreadId, Threads};

/// The number of a failure: no such thread, or no such place to stop.
pub const FAILED: u8 = 1;

/// The number of a failure: no such address.
const NO_ADDRESS: u8 = 0x14;

/// The number of a failure: nothing is written.
const READ_ONLY: u8 = 0x1e;

/// The payload of a reply, or none where it is longer than a packet.
pub fn put_reply(reply: &Reply<'_>, out: &mut Payload)
    ensures { out.new.items ≡ fitting (reply_text reply.now) }
{
    if write_reply(reply, out).is_err() {
        out.clear();
    }
    let _within = out.len();
}

/// The payload that tells bytes, or none where they are more than fit.
fn put_bytes(bytes: &Bytes, written: Result<(), Full>, out: &mut Payload)
    ensures done { OnOk written (out.new.items ≡ fitting (hex_text bytes.now.items)) }
    ensures full { IsOk written ⊎ (out.new.items ≡ []) }
{
    match written {
        Ok(()) => put_reply(&Reply::Bytes(bytes.as_slice()), out),
        Err(Full) => out.clear(),
    }
}

/// The registers, each lowest byte first.
fn push_registers(out: &mut Bytes, regs: &Regs) -> Result<(), Full>
    ensures done { OnOk result (out.new.items ≡ out.old.items ++ registers_bytes regs.now) }
    ensures fits { array_vec_len out.old + length (registers_bytes regs.now) ≤ 2048
        → IsOk result }
{
    let file = regs.file();
    let (registers, _) = file.as_slice().split_at(32);
    push_words(out, registers)?;
    push_words(out, &[regs.pc()])
}

/// The registers of a thread; zeros where it has ended.
fn registers_of(threads: &Threads, thread: ThreadId) -> Regs
    ensures { result ≡ registers_of thread threads.now }
{
    match threads.regs(thread) {
        Some(regs) => regs,
        None => Regs::new(0),
    }
}

/// A thread's registers.
fn put_registers(threads: &Threads, thread: ThreadId, out: &mut Payload)
    ensures { out.new.items
        ≡ fitting (registers_text thread threads.now) }
{
    let mut bytes = ArrayVec::new();
    let written = push_registers(&mut bytes, &registers_of(threads, thread));
    put_bytes(&bytes, written, out);
}

/// Memory, as much as is there.
fn put_memory(memory: &Memory, address: u32, count: u32, out: &mut Payload)
    ensures { out.new.items ≡ fitting (memory_text address count memory.now.bytes) }
{
    let bytes = memory_bytes(memory, address, count);
    if bytes.is_empty() {
        put_reply(&Reply::Failed(NO_ADDRESS), out);
    } else {
        put_reply(&Reply::Bytes(bytes.as_slice()), out);
    }
}

/// For what a thread waits, or on which hart it is.
fn put_standing(tables: &Tables, thread: ThreadId, out: &mut Payload)
    ensures { out.new.items ≡ fitting (hex_text (standing_text thread tables.now)) }
{
    let mut bytes = ArrayVec::new();
    let written = push_standing(&mut bytes, tables, thread);
    put_bytes(&bytes, written, out);
}

/// What is told of a thread that isn't there.
fn absent_text(threads: &Threads, thread: u32) -> &'static [u8]
    ensures { result.now ≡ absent_text (thread_of threads.now thread) }
{
    match threads.thread(thread) {
        Some(Thread::Ended(_)) => b"has ended".as_slice(),
        _ => b"isn't there".as_slice(),
    }
}

/// What is told of a thread, where it is listed.
fn put_thread(tables: &Tables, known: u8, thread: u32, out: &mut Payload)
    ensures { out.new.items ≡ fitting (thread_text known thread tables.now) }
{
    if is_shown(&tables.threads, thread) {
        put_standing(tables, thread as u8, out);
    } else if is_known(known, thread) {
        put_reply(&Reply::Bytes(absent_text(&tables.threads, thread)), out);
    } else {
        put_reply(&Reply::Failed(FAILED), out);
    }
}

/// Done, or failed.
pub fn put_done(is_done: bool, out: &mut Payload)
    ensures { out.new.items ≡ fitting (done_text is_done) }
{
    if is_done {
        put_reply(&Reply::Done, out);
    } else {
        put_reply(&Reply::Failed(FAILED), out);
    }
}

/// The ids of threads.
fn put_ids(threads: &Threads, known: u8, out: &mut Payload)
    ensures { out.new.items ≡ fitting (ids_text known threads.now) }
{
    let ids = listed_ids(threads, known);
    put_reply(&Reply::Threads(ids.as_slice()), out);
}

/// The thread that is meant: of any, that of the last stop.
pub fn meant(choice: Choice, view: &View) -> u32
    ensures { result ≡ meant choice view.now }
{
    match choice {
        Choice::One(thread) => thread,
        Choice::Any | Choice::All => u32::from(view.last.thread),
    }
}

/// The last stop, as it was told.
pub fn put_last(view: &View, out: &mut Payload)
    ensures { out.new.items ≡ fitting (last_text view.now) }
{
    let last = view.last;
    put_reply(&Reply::Stop(last.signal, last.cause, last.thread), out);
}

/// The description of the target, from an offset on.
#[tactic(auto, unfolding(crate::specs::Requests::description_text))]
fn put_description(from: u32, count: u32, out: &mut Payload)
    ensures { out.new.items ≡ fitting (description_text from count) }
{
    put_reply(&Reply::Part(DESCRIPTION, from, count), out);
}

/// What is answered always so. `false` where something else was asked.
fn look_constant(request: &Request, out: &mut Payload) -> bool
    ensures told { result ≡ is_some (constant_of request.now) }
    ensures payload { IfSome (constant_of request.now) (λ text. out.new.items ≡ fitting text) }
{
    match request {
        Request::Features => put_reply(&Reply::Features, out),
        Request::WithoutAcknowledgements | Request::Symbols => put_reply(&Reply::Done, out),
        Request::MoreThreads => put_reply(&Reply::NoMoreThreads, out),
        Request::Motions => put_reply(&Reply::Motions, out),
        Request::IsAttached => put_reply(&Reply::Attached, out),
        Request::Description(from, count) => put_description(*from, *count, out),
        Request::Change => put_reply(&Reply::Failed(READ_ONLY), out),
        Request::Malformed => put_reply(&Reply::Failed(FAILED), out),
        Request::Extended | Request::Restart(_) | Request::Unknown => {
            put_reply(&Reply::Unsupported, out);
        }
        _ => return false,
    }
    true
}

/// What is told of threads. `false` where something else was asked.
fn look_threads(request: &Request, view: &View, tables: &Tables, out: &mut Payload) -> bool
    ensures told { result ≡ is_some (threads_look_of request.now view.now tables.now) }
    ensures payload { IfSome (threads_look_of request.now view.now tables.now)
        (λ text. out.new.items ≡ fitting text) }
{
    let threads = &tables.threads;
    match request {
        Request::LastStop => put_last(view, out),
        Request::Registers => put_registers(threads, view.examined, out),
        Request::IsAlive(choice) => put_done(
            is_listed(threads, view.known, meant(*choice, view)),
            out,
        ),
        Request::FirstThreads => put_ids(threads, view.known, out),
        Request::ThreadText(choice) => put_thread(tables, view.known, meant(*choice, view), out),
        _ => return false,
    }
    true
}

/// What is told of the memory. `false` where something else was asked.
fn look_memory(request: &Request, memory: &Memory, out: &mut Payload) -> bool
    ensures told { result ≡ is_some (memory_look_of request.now memory.now.bytes) }
    ensures payload { IfSome (memory_look_of request.now memory.now.bytes)
        (λ text. out.new.items ≡ fitting text) }
{
    match request {
        Request::Memory(address, count) => {
            put_memory(memory, *address, *count, out);
            true
        }
        _ => false,
    }
}

/// What is told of a state. `false` where something else was asked.
pub fn tell_state(request: &Request, view: &View, machine: &Machine, out: &mut Payload) -> bool
    ensures told { result ≡ is_some (look_of request.now view.now machine.now.state) }
    ensures payload { IfSome (look_of request.now view.now machine.now.state)
        (λ text. out.new.items ≡ fitting text) }
{
    look_constant(request, out)
        || look_threads(request, view, machine.tables(), out)
        || look_memory(request, machine.memory(), out)
}

//! Writing harts, threads and waits.
ghost use Rattle.std.specs.Prelude.{◌≡◌, ◌≤◌, ◌<◌, ◌+◌, ◌∷◌, ◌++◌, [], length};
ghost use Rattle.std.specs.List.{flat_map};
ghost use Rattle.byteorder.specs.Endian.{little_bytes};
ghost use Rattle.ckrt_thread.specs.Contents.{thread_rows, rows_of};
ghost use Rattle.ckrt_thread.specs.State.{thread_of};
ghost use Rattle.ckrt_thread.specs.declared.records.Thread.TheVariants as thread;
ghost use Rattle.ckrt_tables.specs.Records.{counted, one_byte, hart_bytes, registers_bytes, handler_bytes, thread_bytes, wait_bytes};
ghost use Rattle.ckrt_tables.specs.Writing.{HasRoom, IsPut};

use crate::keys::put_data;
use crate::numbers::{first_name, flag, flags_of, id_or_0, kind_of, result_of, second_name};
use crate::writing::{Record, put, put_all};
use byteorder::{ByteOrder, LittleEndian};
use ckrt_registers::Regs;
use ckrt_thread::{
    Handler, Live, MAX_HARTS, MAX_THREADS, SpecificData, Thread, ThreadId, Threads, Wait,
};

/// The thread on each hart.
pub fn put_harts(out: &mut [u8], at: usize, threads: &Threads) -> usize
    requires { HasRoom out.old at (flat_map hart_bytes threads.now.harts) }
    ensures { IsPut out.old at (flat_map hart_bytes threads.now.harts) out.new result }
{
    threads.known();
    let mut end = at;
    for hart in 0..MAX_HARTS {
        end = put(out, end, &[id_or_0(threads.on_hart(hart))]);
    }
    end
}

/// The pc, and x1 to x31.
fn put_registers(out: &mut [u8], at: usize, regs: &Regs) -> usize
    requires { HasRoom out.old at (registers_bytes regs.now) }
    ensures { IsPut out.old at (registers_bytes regs.now) out.new result }
{
    let mut end = put(out, at, &regs.pc().to_le_bytes());
    for register in 1..32u8 {
        end = put(out, end, &regs.get(register).to_le_bytes());
    }
    end
}

impl Record for Handler {
    ghost use Rattle.ckrt_tables.specs.Records.{handler_bytes};

    ghost encoding = { handler_bytes };

    fn put(&self, out: &mut [u8], at: usize) -> usize {
        put(out, at, &handler_bytes(self))
    }
}

/// A clean-up handler.
fn handler_bytes(handler: &Handler) -> [u8; 8]
    ensures { result ≡ handler_bytes handler.now }
{
    let mut bytes = [0; 8];
    LittleEndian::write_u32(&mut bytes, handler.routine);
    LittleEndian::write_u32(&mut bytes[4..], handler.argument);
    bytes
}

/// What a thread's record begins with.
fn thread_head(id: ThreadId, flags: u8, handlers: u8, value: u32) -> [u8; 8]
    ensures { result ≡ id ∷ flags ∷ handlers ∷ 0 ∷ little_bytes 4 value }
{
    let mut head = [id, flags, handlers, 0, 0, 0, 0, 0];
    LittleEndian::write_u32(&mut head[4..], value);
    head
}

/// A thread that has not ended.
fn put_live(out: &mut [u8], at: usize, id: ThreadId, live: &Live, version: u32) -> usize
    requires { HasRoom out.old at
        (thread_bytes version (record { id = id; thread = thread.Live live.now })) }
    ensures { IsPut out.old at
        (thread_bytes version (record { id = id; thread = thread.Live live.now })) out.new
        result }
{
    let handlers = live.handlers.as_slice();
    let value = live.cancellation.unwinding.unwrap_or(0);
    let head = thread_head(id, flags_of(live), handlers.len() as u8, value);
    let end = put(out, at, &head);
    let end = put_registers(out, end, &live.regs);
    let end = put_all(out, end, handlers);
    put_data(out, end, &live.specific, version)
}

/// A thread that has ended with a value.
fn put_ended(out: &mut [u8], at: usize, id: ThreadId, value: u32, version: u32) -> usize
    requires { HasRoom out.old at
        (thread_bytes version (record { id = id; thread = thread.Ended value })) }
    ensures { IsPut out.old at
        (thread_bytes version (record { id = id; thread = thread.Ended value })) out.new
        result }
{
    let end = put(out, at, &thread_head(id, 64, 0, value));
    let end = put_registers(out, end, &Regs::new(0));
    put_data(out, end, &SpecificData::new(), version)
}

/// What stands for an id: a thread, or nothing.
fn put_slot(out: &mut [u8], at: usize, threads: &Threads, id: ThreadId, version: u32) -> usize
    requires { HasRoom out.old at
        (flat_map (thread_bytes version) (rows_of id (thread_of threads.now id))) }
    ensures { IsPut out.old at
        (flat_map (thread_bytes version) (rows_of id (thread_of threads.now id))) out.new
        result }
{
    match threads.thread(u32::from(id)) {
        Some(Thread::Live(live)) => put_live(out, at, id, live, version),
        Some(Thread::Ended(value)) => put_ended(out, at, id, *value, version),
        None => at,
    }
}

/// The threads by rising id. There is a place for each id of 1 to 64, and place 0, which stays empty.
pub fn put_threads(out: &mut [u8], at: usize, threads: &Threads, version: u32) -> usize
    requires { HasRoom out.old at
        (counted one_byte (thread_bytes version) (thread_rows threads.now)) }
    ensures { IsPut out.old at (counted one_byte (thread_bytes version) (thread_rows threads.now))
        out.new result }
{
    threads.known();
    let mut end = put(out, at, &[threads.thread_count() as u8]);
    for id in 0..65u8 {
        end = put_slot(out, end, threads, id, version);
    }
    end
}

/// A wait.
fn wait_bytes(wait: &Wait) -> [u8; 20]
    ensures { result ≡ wait_bytes wait.now }
{
    let present = flag(1, wait.deadline.is_some());
    let mut bytes = [0; 20];
    bytes[0] = wait.thread;
    bytes[1] = kind_of(wait.reason);
    bytes[2] = result_of(wait.reason);
    bytes[3] = present;
    LittleEndian::write_u32(&mut bytes[4..], first_name(wait.reason));
    LittleEndian::write_u32(&mut bytes[8..], second_name(wait.reason));
    LittleEndian::write_u64(&mut bytes[12..], wait.deadline.unwrap_or(0));
    bytes
}

impl Record for Wait {
    ghost use Rattle.ckrt_tables.specs.Records.{wait_bytes};

    ghost encoding = { wait_bytes };

    fn put(&self, out: &mut [u8], at: usize) -> usize {
        put(out, at, &wait_bytes(self))
    }
}

/// The waits in order, at most 64.
pub fn put_waits(out: &mut [u8], at: usize, threads: &Threads) -> usize
    requires { HasRoom out.old at (counted one_byte wait_bytes threads.now.waits) }
    ensures { IsPut out.old at (counted one_byte wait_bytes threads.now.waits) out.new result }
{
    let table = threads.waits();
    let waits = table.as_slice();
    let end = put(out, at, &[waits.len() as u8]);
    put_all(out, end, waits)
}

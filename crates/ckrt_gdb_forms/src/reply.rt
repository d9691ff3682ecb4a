//! What gdb is answered.
ghost use Rattle.std.specs.Prelude.{◌≡◌, ◌+◌, ◌≤◌, ◌++◌, IsOk, OnOk, length};
ghost use Rattle.arrayvec.specs.ArrayVec.{array_vec_len};
ghost use Rattle.ckrt_gdb_forms.specs.Numbers.{byte_text, hex_text};
ghost use Rattle.ckrt_gdb_forms.specs.Replies.{address_text, cause_text, escaped, ids_text, part_text, reply_text, stop_text, threads_text, why_text};

use crate::payload::{Full, Payload, push, push_digits, push_escaped, push_hex, push_number};

/// How many bytes of a part go into a packet, however many of them are special.
const PART_LIMIT: u32 = 2_047;

/// Why a program stopped, where gdb is told so.
#[derive(Clone, Copy, Debug, Drop, PartialEq, Eq)]
pub enum Cause {
    /// By the signal alone.
    Stopped,
    /// A watched byte was written, in the range that begins at this address.
    Written(u32),
    /// A watched byte was read, in the range that begins at this address.
    Read(u32),
    /// A watched byte was read or written, in the range that begins at this address.
    Accessed(u32),
    /// Nothing was recorded before.
    Begin,
    /// Nothing is recorded behind.
    End,
}

/// What gdb is answered.
#[derive(Clone, Copy, Drop)]
pub enum Reply<'a> {
    /// The stub has nothing of the kind.
    Unsupported,
    Done,
    /// It failed, with a number of the stub's own.
    Failed(u8),
    /// Registers, memory, or the text of a thread.
    Bytes(&'a [u8]),
    /// A text for gdb's console, before the answer itself.
    Console(&'a [u8]),
    /// What the stub has.
    Features,
    /// In which ways threads may move.
    Motions,
    /// The program was there before gdb: it stays when gdb leaves.
    Attached,
    /// The ids of threads.
    Threads(&'a [u8]),
    NoMoreThreads,
    /// A stop: the signal's number, the cause, and the thread.
    Stop(u8, Cause, u8),
    /// Of a text the bytes from an offset on, so many at most.
    Part(&'a [u8], u32, u32),
}

/// Writes the payload of a reply, in place of what was in `out`.
pub fn write_reply(reply: &Reply<'_>, out: &mut Payload) -> Result<(), Full>
    ensures done { OnOk result (out.new.items ≡ reply_text reply.now) }
    ensures fits { length (reply_text reply.now) ≤ 4096 → IsOk result }
{
    out.clear();
    match *reply {
        Reply::Unsupported => Ok(()),
        Reply::Done => push(out, b"OK"),
        Reply::Failed(number) => push_byte_behind(out, b"E", number),
        Reply::Bytes(bytes) => push_hex(out, bytes),
        Reply::Console(bytes) => push_hex_behind(out, b"O", bytes),
        Reply::Features => push(
            out,
            b"PacketSize=1000;QStartNoAckMode+;qXfer:features:read+;ReverseStep+;ReverseContinue+;vContSupported+",
        ),
        Reply::Motions => push(out, b"vCont;c;C;s;S;r"),
        Reply::Attached => push(out, b"1"),
        Reply::Threads(ids) => push_threads(out, ids),
        Reply::NoMoreThreads => push(out, b"l"),
        Reply::Stop(signal, cause, thread) => push_stop(out, signal, cause, thread),
        Reply::Part(text, from, count) => push_part(out, text, from, count),
    }
}

/// A sign, and bytes in two digits each.
fn push_hex_behind(out: &mut Payload, sign: &[u8], bytes: &[u8]) -> Result<(), Full>
    ensures done { OnOk result (out.new.items ≡ out.old.items ++ (sign.now ++ hex_text bytes.now)) }
    ensures fits { array_vec_len out.old + length (sign.now ++ hex_text bytes.now) ≤ 4096
        → IsOk result }
{
    push(out, sign)?;
    push_hex(out, bytes)
}

/// A sign, and a byte in two digits.
fn push_byte_behind(out: &mut Payload, sign: &[u8], byte: u8) -> Result<(), Full>
    ensures done { OnOk result (out.new.items ≡ out.old.items ++ (sign.now ++ byte_text byte)) }
    ensures fits { array_vec_len out.old + length (sign.now ++ byte_text byte) ≤ 4096
        → IsOk result }
{
    push(out, sign)?;
    push_digits(out, byte)
}

/// The ids of threads, with commas between them.
fn push_threads(out: &mut Payload, ids: &[u8]) -> Result<(), Full>
    ensures done { OnOk result (out.new.items ≡ out.old.items ++ threads_text ids.now) }
    ensures fits { array_vec_len out.old + length (threads_text ids.now) ≤ 4096 → IsOk result }
{
    push(out, b"m")?;
    push_ids(out, ids)
}

fn push_ids(out: &mut Payload, ids: &[u8]) -> Result<(), Full>
    ensures done { OnOk result (out.new.items ≡ out.old.items ++ ids_text ids.now) }
    ensures fits { array_vec_len out.old + length (ids_text ids.now) ≤ 4096 → IsOk result }
{
    let mut rest = ids;
    while let [id, tail @ ..] = rest {
        push_number(out, u32::from(*id))?;
        if !tail.is_empty() {
            push(out, b",")?;
        }
        rest = tail;
    }
    Ok(())
}

/// A word, an address, and the sign that ends them.
fn push_address(out: &mut Payload, word: &[u8], address: u32) -> Result<(), Full>
    ensures done { OnOk result (out.new.items ≡ out.old.items ++ address_text word.now address) }
    ensures fits { array_vec_len out.old + length (address_text word.now address) ≤ 4096
        → IsOk result }
{
    push(out, word)?;
    push_number(out, address)?;
    push(out, b";")
}

fn push_cause(out: &mut Payload, cause: Cause) -> Result<(), Full>
    ensures done { OnOk result (out.new.items ≡ out.old.items ++ cause_text cause) }
    ensures fits { array_vec_len out.old + length (cause_text cause) ≤ 4096 → IsOk result }
{
    match cause {
        Cause::Stopped => Ok(()),
        Cause::Written(address) => push_address(out, b"watch:", address),
        Cause::Read(address) => push_address(out, b"rwatch:", address),
        Cause::Accessed(address) => push_address(out, b"awatch:", address),
        Cause::Begin => push(out, b"replaylog:begin;"),
        Cause::End => push(out, b"replaylog:end;"),
    }
}

fn push_stop(out: &mut Payload, signal: u8, cause: Cause, thread: u8) -> Result<(), Full>
    ensures done { OnOk result (out.new.items ≡ out.old.items ++ stop_text signal cause thread) }
    ensures fits { array_vec_len out.old + length (stop_text signal cause thread) ≤ 4096
        → IsOk result }
{
    push_byte_behind(out, b"T", signal)?;
    push_why(out, cause, thread)
}

fn push_why(out: &mut Payload, cause: Cause, thread: u8) -> Result<(), Full>
    ensures done { OnOk result (out.new.items ≡ out.old.items ++ why_text cause thread) }
    ensures fits { array_vec_len out.old + length (why_text cause thread) ≤ 4096 → IsOk result }
{
    push_cause(out, cause)?;
    push_address(out, b"thread:", u32::from(thread))
}

fn push_part(out: &mut Payload, text: &[u8], from: u32, count: u32) -> Result<(), Full>
    ensures done { OnOk result (out.new.items ≡ out.old.items ++ part_text text.now from count) }
    ensures fits { array_vec_len out.old + length (part_text text.now from count) ≤ 4096
        → IsOk result }
{
    let count = count.min(PART_LIMIT) as usize;
    let rest = text.get(from as usize..).unwrap_or_default();
    match rest.split_at_checked(count) {
        None => push_part_behind(out, b"l", rest),
        Some((part, [])) => push_part_behind(out, b"l", part),
        Some((part, _)) => push_part_behind(out, b"m", part),
    }
}

/// A sign, and bytes, the special ones escaped.
fn push_part_behind(out: &mut Payload, sign: &[u8], part: &[u8]) -> Result<(), Full>
    ensures done { OnOk result (out.new.items ≡ out.old.items ++ (sign.now ++ escaped part.now)) }
    ensures fits { array_vec_len out.old + length (sign.now ++ escaped part.now) ≤ 4096
        → IsOk result }
{
    push(out, sign)?;
    push_escaped(out, part)
}

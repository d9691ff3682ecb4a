//! Words and numbers.
ghost use Rattle.std.specs.Prelude.{◌≡◌, ◌++◌, length, decimal, OnOk};
ghost use Rattle.ckrt_thread.specs.declared.records.Reason.TheVariants as reason;
ghost use Rattle.ckrt_calls.specs.declared.table.Status.TheVariants as status;
ghost use Rattle.ckrt_inspect.specs.Texts.{flag_text, hex_text, kind_text, reason_text, retake_text, status_text};

use ckrt_calls::Status;
use ckrt_mutex::Kind;
use ckrt_rv32i::Cause;
use ckrt_thread::{Reason, RetakeResult, ThreadId};
use std::alloc::AllocError;

/// A word.
pub fn push(out: &mut Vec<u8>, text: &[u8]) -> Result<(), AllocError>
    ensures { OnOk result (out.new.items ≡ out.old.items ++ text.now) }
{
    out.extend_from_slice(text)
}

/// A number in decimal.
pub fn push_number(out: &mut Vec<u8>, number: u64) -> Result<(), AllocError>
    ensures { OnOk result (out.new.items ≡ out.old.items ++ decimal number) }
{
    out.extend_from_slice(itoa::Buffer::new().format(number).as_bytes())
}

/// An address, a pc or a word of memory: eight hexadecimal digits.
pub fn push_hex(out: &mut Vec<u8>, number: u32) -> Result<(), AllocError>
    ensures { OnOk result (out.new.items ≡ out.old.items ++ hex_text number) }
{
    let bytes = number.to_be_bytes();
    let mut digits = [0u8; 8];
    match hex::encode_to_slice(&bytes, &mut digits) {
        Ok(()) => out.extend_from_slice(&digits),
        Err(_) => unreachable!(),
    }
}

/// One of two words, after a space.
pub fn push_flag(out: &mut Vec<u8>, yes: &[u8], no: &[u8], is: bool) -> Result<(), AllocError>
    ensures { OnOk result (out.new.items ≡ out.old.items ++ flag_text yes.now no.now is) }
{
    push(out, b" ")?;
    if is { push(out, yes) } else { push(out, no) }
}

/// How the program ended, or that it runs.
pub fn push_status(out: &mut Vec<u8>, status: Status) -> Result<(), AllocError>
    ensures { OnOk result (out.new.items ≡ out.old.items ++ status_text status) }
{
    match status {
        Status::Running => push(out, b"running"),
        Status::Exited(code) => push_exit(out, code),
        Status::Faulted(thread, pc, cause) => push_fault(out, thread, pc, cause),
    }
}

fn push_exit(out: &mut Vec<u8>, code: u32) -> Result<(), AllocError>
    ensures { OnOk result (out.new.items ≡ out.old.items ++ status_text (status.Exited code)) }
{
    push(out, b"exit ")?;
    push_number(out, u64::from(code))
}

fn push_fault(out: &mut Vec<u8>, thread: ThreadId, pc: u32, cause: Cause) -> Result<(), AllocError>
    ensures { OnOk result
        (out.new.items ≡ out.old.items ++ status_text (status.Faulted thread pc cause)) }
{
    push(out, b"fault ")?;
    push_number(out, u64::from(thread))?;
    push(out, b" ")?;
    push_hex(out, pc)?;
    push(out, b" ")?;
    push(out, cause.name().as_bytes())
}

/// What a thread gets with its mutex.
fn retake_text(retake: RetakeResult) -> &'static [u8]
    ensures { result.now ≡ retake_text retake }
{
    match retake {
        RetakeResult::Done => b"0".as_slice(),
        RetakeResult::TimedOut => b"110".as_slice(),
        RetakeResult::Unwind => b"unwind".as_slice(),
    }
}

/// A word, and an address after it.
fn push_at(out: &mut Vec<u8>, word: &[u8], address: u32) -> Result<(), AllocError>
    ensures { OnOk result (out.new.items ≡ out.old.items ++ (word.now ++ hex_text address)) }
{
    push(out, word)?;
    push_hex(out, address)
}

/// What a thread waits for.
pub fn push_reason(out: &mut Vec<u8>, reason: Reason) -> Result<(), AllocError>
    ensures { OnOk result (out.new.items ≡ out.old.items ++ reason_text reason) }
{
    match reason {
        Reason::Input => push(out, b"input"),
        Reason::Sleep => push(out, b"sleep"),
        Reason::Join(thread) => push_join(out, thread),
        Reason::Lock(address) => push_at(out, b"mutex ", address),
        Reason::Retake(address, retake) => push_retake(out, address, retake),
        Reason::Condition(condition, mutex) => push_condition(out, condition, mutex),
        Reason::Barrier(address) => push_at(out, b"barrier ", address),
        Reason::Read(address) => push_at(out, b"read ", address),
        Reason::Write(address) => push_at(out, b"write ", address),
    }
}

fn push_join(out: &mut Vec<u8>, thread: ThreadId) -> Result<(), AllocError>
    ensures { OnOk result (out.new.items ≡ out.old.items ++ reason_text (reason.Join thread)) }
{
    push(out, b"join ")?;
    push_number(out, u64::from(thread))
}

fn push_retake(out: &mut Vec<u8>, address: u32, retake: RetakeResult) -> Result<(), AllocError>
    ensures { OnOk result
        (out.new.items ≡ out.old.items ++ reason_text (reason.Retake address retake)) }
{
    push_at(out, b"retake ", address)?;
    push(out, b" ")?;
    push(out, retake_text(retake))
}

fn push_condition(out: &mut Vec<u8>, condition: u32, mutex: u32) -> Result<(), AllocError>
    ensures { OnOk result
        (out.new.items ≡ out.old.items ++ reason_text (reason.Condition condition mutex)) }
{
    push_at(out, b"cond ", condition)?;
    push(out, b" ")?;
    push_hex(out, mutex)
}

/// The word for a mutex's kind.
pub fn kind_text(kind: Kind) -> &'static [u8]
    ensures { result.now ≡ kind_text kind }
{
    match kind {
        Kind::Normal => b"normal".as_slice(),
        Kind::Recursive => b"recursive".as_slice(),
        Kind::ErrorCheck => b"errorcheck".as_slice(),
    }
}

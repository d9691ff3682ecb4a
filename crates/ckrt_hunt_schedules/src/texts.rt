//! Words, numbers and what a run came to, onto a writer.
ghost use Rattle.std.specs.Prelude.{◌++◌, codes, decimal, take, length, OnOk};
ghost use Rattle.std.specs.List.{flat_map};
ghost use Rattle.std.specs.Io.KnownBytes.{Appends};
ghost use Rattle.hex.specs.Hex.{encode_lower};
ghost use Rattle.ckrt_inspect.specs.Texts.{hex_text};
ghost use Rattle.ckrt_hunt_schedules.specs.declared.outcome.Outcome.TheVariants.{Deadlock, Faulted};
ghost use Rattle.ckrt_hunt_schedules.specs.Table.{awaited_text, digest_text, outcome_text, owner_text, waiting_text};

use crate::outcome::{Awaited, Outcome, Waiting};
use ckrt_rv32i::Cause;
use ckrt_thread::ThreadId;
use std::io::{Result, Write};

/// A number in decimal.
pub fn write_number<W: Write>(out: &mut W, number: u64) -> Result<()>
    ensures { OnOk result (Appends (W.contents out.old) (W.contents out.new) (decimal number)) }
{
    out.write_all(itoa::Buffer::new().format(number).as_bytes())
}

/// A word, and a number after it.
#[tactic(auto, using(crate::proofs::AppendLemmas::appends_both))]
pub fn write_counted<W: Write>(out: &mut W, word: &[u8], number: u64) -> Result<()>
    ensures { OnOk result
        (Appends (W.contents out.old) (W.contents out.new) (word.now ++ decimal number)) }
{
    out.write_all(word)?;
    write_number(out, number)
}

/// An address or a pc: eight hexadecimal digits.
fn write_hex<W: Write>(out: &mut W, number: u32) -> Result<()>
    ensures { OnOk result (Appends (W.contents out.old) (W.contents out.new) (hex_text number)) }
{
    let bytes = number.to_be_bytes();
    let mut digits = [0u8; 8];
    match hex::encode_to_slice(&bytes, &mut digits) {
        Ok(()) => out.write_all(&digits),
        Err(_) => unreachable!(),
    }
}

/// A word, and an address after it.
#[tactic(auto, using(crate::proofs::AppendLemmas::appends_both))]
fn write_at<W: Write>(out: &mut W, word: &[u8], address: u32) -> Result<()>
    ensures { OnOk result
        (Appends (W.contents out.old) (W.contents out.new) (word.now ++ hex_text address)) }
{
    out.write_all(word)?;
    write_hex(out, address)
}

#[tactic(auto, using(crate::proofs::AppendLemmas::appends_both))]
fn write_known_owner<W: Write>(out: &mut W, thread: ThreadId) -> Result<()>
    ensures { OnOk result
        (Appends (W.contents out.old) (W.contents out.new)
        (codes " (thread " ++ decimal thread ++ codes " has it)")) }
{
    write_counted(out, b" (thread ", u64::from(thread))?;
    out.write_all(b" has it)")
}

/// Who has what is waited for, where somebody does.
#[tactic(auto, using(crate::proofs::AppendLemmas::appends_none))]
fn write_owner<W: Write>(out: &mut W, owner: Option<ThreadId>) -> Result<()>
    ensures { OnOk result
        (Appends (W.contents out.old) (W.contents out.new) (owner_text owner)) }
{
    match owner {
        Some(thread) => write_known_owner(out, thread),
        None => Ok(()),
    }
}

/// A mutex, and who has it.
#[tactic(auto, using(crate::proofs::AppendLemmas::appends_both))]
fn write_mutex<W: Write>(out: &mut W, address: u32, owner: Option<ThreadId>) -> Result<()>
    ensures { OnOk result
        (Appends (W.contents out.old) (W.contents out.new)
        (codes "mutex " ++ hex_text address ++ owner_text owner)) }
{
    write_at(out, b"mutex ", address)?;
    write_owner(out, owner)
}

/// What a thread waits for.
fn write_awaited<W: Write>(out: &mut W, awaited: Awaited) -> Result<()>
    ensures { OnOk result
        (Appends (W.contents out.old) (W.contents out.new) (awaited_text awaited)) }
{
    match awaited {
        Awaited::Input => out.write_all(b"input"),
        Awaited::Deadline => out.write_all(b"its deadline"),
        Awaited::End(thread) => write_counted(out, b"the end of thread ", u64::from(thread)),
        Awaited::Mutex(address, owner) => write_mutex(out, address, owner),
        Awaited::Condition(address) => write_at(out, b"condition ", address),
        Awaited::Barrier(address) => write_at(out, b"barrier ", address),
        Awaited::Read(address) => write_at(out, b"read lock ", address),
        Awaited::Write(address) => write_at(out, b"write lock ", address),
    }
}

/// A thread, and what it waits for.
#[tactic(auto, using(crate::proofs::AppendLemmas::appends_both))]
fn write_waiting<W: Write>(out: &mut W, waiting: &Waiting) -> Result<()>
    ensures { OnOk result
        (Appends (W.contents out.old) (W.contents out.new) (waiting_text waiting.now)) }
{
    write_counted(out, b", thread ", u64::from(waiting.thread))?;
    out.write_all(b" waits for ")?;
    write_awaited(out, waiting.awaited)
}

/// Who waits, and for what.
#[tactic(auto, using(crate::proofs::AppendLemmas::appends_none, crate::proofs::AppendLemmas::appends_all))]
fn write_waitings<W: Write>(out: &mut W, waitings: &[Waiting]) -> Result<()>
    ensures { OnOk result
        (Appends (W.contents out.old) (W.contents out.new)
        (flat_map waiting_text waitings.now)) }
{
    for waiting in waitings {
        write_waiting(out, waiting)?;
    }
    Ok(())
}

fn write_fault<W: Write>(out: &mut W, thread: ThreadId, pc: u32, cause: Cause) -> Result<()>
    ensures { OnOk result
        (Appends (W.contents out.old) (W.contents out.new)
        (outcome_text 0 (Faulted thread pc cause))) }
{
    write_counted(out, b"fault of thread ", u64::from(thread))?;
    write_at(out, b" at ", pc)?;
    out.write_all(b", ")?;
    out.write_all(cause.name().as_bytes())
}

#[tactic(auto, using(crate::proofs::AppendLemmas::appends_both))]
fn write_deadlock<W: Write>(out: &mut W, waitings: &[Waiting]) -> Result<()>
    ensures { OnOk result
        (Appends (W.contents out.old) (W.contents out.new)
        (codes "deadlock" ++ flat_map waiting_text waitings.now)) }
{
    out.write_all(b"deadlock")?;
    write_waitings(out, waitings)
}

fn write_limit<W: Write>(out: &mut W, limit: u32) -> Result<()>
    ensures { OnOk result
        (Appends (W.contents out.old) (W.contents out.new)
        (codes "no end within " ++ decimal limit ++ codes " steps or events")) }
{
    write_counted(out, b"no end within ", u64::from(limit))?;
    out.write_all(b" steps or events")
}

#[tactic(auto, using(crate::proofs::AppendLemmas::appends_both))]
fn write_no_end<W: Write>(out: &mut W, limit: u32, circle: &[Waiting]) -> Result<()>
    ensures { OnOk result
        (Appends (W.contents out.old) (W.contents out.new)
        ((codes "no end within " ++ decimal limit ++ codes " steps or events")
        ++ flat_map waiting_text circle.now)) }
{
    write_limit(out, limit)?;
    write_waitings(out, circle)
}

/// What a run of at most that many steps and events came to.
pub fn write_outcome<W: Write>(out: &mut W, limit: u32, outcome: &Outcome) -> Result<()>
    ensures { OnOk result
        (Appends (W.contents out.old) (W.contents out.new) (outcome_text limit outcome.now)) }
{
    match outcome {
        Outcome::Exited(status) => write_counted(out, b"exit ", u64::from(*status)),
        Outcome::Faulted(thread, pc, cause) => write_fault(out, *thread, *pc, *cause),
        Outcome::Deadlock(waitings) => write_deadlock(out, waitings.as_slice()),
        Outcome::WaitsForInput => out.write_all(b"waits for input"),
        Outcome::NoEnd(circle) => write_no_end(out, limit, circle.as_slice()),
    }
}

/// The first bytes of a digest: eight hexadecimal digits.
fn write_beginning<W: Write>(out: &mut W, digest: &[u8; 32]) -> Result<()>
    ensures { OnOk result
        (Appends (W.contents out.old) (W.contents out.new) (encode_lower (take 4 digest.now))) }
{
    let (beginning, _) = digest.split_at(4);
    let mut digits = [0u8; 8];
    match hex::encode_to_slice(beginning, &mut digits) {
        Ok(()) => out.write_all(&digits),
        Err(_) => unreachable!(),
    }
}

#[tactic(auto, using(crate::proofs::AppendLemmas::appends_both))]
fn write_known_digest<W: Write>(out: &mut W, digest: &[u8; 32]) -> Result<()>
    ensures { OnOk result
        (Appends (W.contents out.old) (W.contents out.new)
        (codes ", output " ++ encode_lower (take 4 digest.now))) }
{
    out.write_all(b", output ")?;
    write_beginning(out, digest)
}

/// The digest of a run's output, where it has one.
#[tactic(auto, using(crate::proofs::AppendLemmas::appends_none))]
pub fn write_digest<W: Write>(out: &mut W, digest: &Option<[u8; 32]>) -> Result<()>
    ensures { OnOk result
        (Appends (W.contents out.old) (W.contents out.new) (digest_text digest.now)) }
{
    match digest {
        Some(digest) => write_known_digest(out, digest),
        None => Ok(()),
    }
}

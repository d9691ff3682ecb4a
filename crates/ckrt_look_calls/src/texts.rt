//! Words, numbers and reasons onto a writer.
ghost use Rattle.std.specs.Prelude.{◌≡◌, ◌++◌, ◌∷◌, [], ◌<◌, Some, codes, decimal, OnOk};
ghost use Rattle.hex.specs.Hex.{encode_lower};
ghost use Rattle.std.specs.Io.KnownBytes.{Appends};
ghost use Rattle.ckrt_thread.specs.declared.records.Reason.TheVariants as reasons;
ghost use Rattle.ckrt_inspect.specs.Texts.{hex_text, reason_text, retake_text};
ghost use Rattle.ckrt_inspect.specs.Listing.{until_text};
ghost use Rattle.ckrt_look_calls.specs.Calls.{answers_text, arguments_text, call_text, call_text_of, listed, moment_text, with_second};

use crate::names::{Answers, Arguments, arguments_of, name_of};
use ckrt_calls::Call;
use ckrt_registers::Regs;
use ckrt_thread::{Reason, RetakeResult};
use std::io::{Result, Write};

/// A number in decimal.
pub fn write_number<W: Write>(out: &mut W, number: u64) -> Result<()>
    ensures { OnOk result (Appends (W.contents out.old) (W.contents out.new) (decimal number)) }
{
    out.write_all(itoa::Buffer::new().format(number).as_bytes())
}

/// A word: eight hexadecimal digits.
pub fn write_hex<W: Write>(out: &mut W, number: u32) -> Result<()>
    ensures { OnOk result (Appends (W.contents out.old) (W.contents out.new) (hex_text number)) }
{
    let bytes = number.to_be_bytes();
    let mut digits = [0u8; 8];
    match hex::encode_to_slice(&bytes, &mut digits) {
        Ok(()) => out.write_all(&digits),
        Err(_) => unreachable!(),
    }
}

/// A byte: two hexadecimal digits.
pub fn write_byte<W: Write>(out: &mut W, byte: u8) -> Result<()>
    ensures { OnOk result
        (Appends (W.contents out.old) (W.contents out.new) (encode_lower (byte ∷ []))) }
{
    let mut digits = [0u8; 2];
    match hex::encode_to_slice(&[byte], &mut digits) {
        Ok(()) => out.write_all(&digits),
        Err(_) => unreachable!(),
    }
}

/// A word, and an address behind it.
#[tactic(auto, using(crate::proofs::AppendLemmas::appends_both))]
fn write_at<W: Write>(out: &mut W, word: &[u8], address: u32) -> Result<()>
    ensures { OnOk result
        (Appends (W.contents out.old) (W.contents out.new) (word.now ++ hex_text address)) }
{
    out.write_all(word)?;
    write_hex(out, address)
}

/// A word, and a number behind it.
#[tactic(auto, using(crate::proofs::AppendLemmas::appends_both))]
pub fn write_counted<W: Write>(out: &mut W, word: &[u8], number: u64) -> Result<()>
    ensures { OnOk result
        (Appends (W.contents out.old) (W.contents out.new) (word.now ++ decimal number)) }
{
    out.write_all(word)?;
    write_number(out, number)
}

/// What a thread gets with its mutex.
fn retake_text(retake: RetakeResult) -> &'static [u8]
    ensures { result.now ≡ retake_text retake }
{
    match retake {
        RetakeResult::Done => b"0".as_slice(),
        RetakeResult::TimedOut => b"110".as_slice(),
        RetakeResult::Unwind => b"unwind".as_slice(),
    }
}

#[tactic(auto, using(crate::proofs::AppendLemmas::appends_both))]
fn write_retake<W: Write>(out: &mut W, address: u32, retake: RetakeResult) -> Result<()>
    ensures { OnOk result
        (Appends (W.contents out.old) (W.contents out.new)
        (reason_text (reasons.Retake address retake))) }
{
    out.write_all(b"retake ")?;
    write_hex(out, address)?;
    out.write_all(b" ")?;
    out.write_all(retake_text(retake))
}

#[tactic(auto, using(crate::proofs::AppendLemmas::appends_both))]
fn write_condition<W: Write>(out: &mut W, condition: u32, mutex: u32) -> Result<()>
    ensures { OnOk result
        (Appends (W.contents out.old) (W.contents out.new)
        (reason_text (reasons.Condition condition mutex))) }
{
    out.write_all(b"cond ")?;
    write_hex(out, condition)?;
    out.write_all(b" ")?;
    write_hex(out, mutex)
}

/// What a thread waits for.
pub fn write_reason<W: Write>(out: &mut W, reason: Reason) -> Result<()>
    ensures { OnOk result
        (Appends (W.contents out.old) (W.contents out.new) (reason_text reason)) }
{
    match reason {
        Reason::Input => out.write_all(b"input"),
        Reason::Sleep => out.write_all(b"sleep"),
        Reason::Join(thread) => write_counted(out, b"join ", u64::from(thread)),
        Reason::Lock(address) => write_at(out, b"mutex ", address),
        Reason::Retake(address, retake) => write_retake(out, address, retake),
        Reason::Condition(condition, mutex) => write_condition(out, condition, mutex),
        Reason::Barrier(address) => write_at(out, b"barrier ", address),
        Reason::Read(address) => write_at(out, b"read ", address),
        Reason::Write(address) => write_at(out, b"write ", address),
    }
}

/// Until when it waits, where it has a deadline.
#[tactic(auto, using(crate::proofs::AppendLemmas::appends_none))]
pub fn write_until<W: Write>(out: &mut W, deadline: Option<u64>) -> Result<()>
    ensures { OnOk result
        (Appends (W.contents out.old) (W.contents out.new) (until_text deadline)) }
{
    match deadline {
        Some(moment) => write_counted(out, b" until ", moment),
        None => Ok(()),
    }
}

/// A moment in two registers, the low word first.
fn write_moment<W: Write>(out: &mut W, regs: &Regs, low: u8, high: u8) -> Result<()>
    requires low { low < 32 }
    requires high { high < 32 }
    ensures { OnOk result
        (Appends (W.contents out.old) (W.contents out.new) (moment_text regs.now low high)) }
{
    regs.known();
    let moment = u64::from(regs.get(low)) + (u64::from(regs.get(high)) << 32);
    write_number(out, moment)
}

/// A register as a word, and a comma behind it.
#[tactic(auto, using(crate::proofs::AppendLemmas::appends_both))]
fn write_word_before<W: Write>(out: &mut W, word: u32) -> Result<()>
    ensures { OnOk result
        (Appends (W.contents out.old) (W.contents out.new) (hex_text word ++ codes ", ")) }
{
    write_hex(out, word)?;
    out.write_all(b", ")
}

/// The arguments of a call.
#[tactic(auto, using(crate::proofs::AppendLemmas::appends_none))]
fn write_arguments<W: Write>(out: &mut W, arguments: Arguments, regs: &Regs) -> Result<()>
    ensures { OnOk result
        (Appends (W.contents out.old) (W.contents out.new) (arguments_text arguments regs.now)) }
{
    match arguments {
        Arguments::Nothing => Ok(()),
        Arguments::Number => write_number(out, u64::from(regs.get(10))),
        Arguments::Word => write_hex(out, regs.get(10)),
        Arguments::WordNumber => {
            write_word_before(out, regs.get(10))?;
            write_number(out, u64::from(regs.get(11)))
        }
        Arguments::NumberWord => {
            write_number(out, u64::from(regs.get(10)))?;
            write_at(out, b", ", regs.get(11))
        }
        Arguments::TwoWords => {
            write_word_before(out, regs.get(10))?;
            write_hex(out, regs.get(11))
        }
        Arguments::Moment => write_moment(out, regs, 10, 11),
        Arguments::WordMoment => {
            write_word_before(out, regs.get(10))?;
            write_moment(out, regs, 11, 12)
        }
        Arguments::TwoWordsMoment => {
            write_word_before(out, regs.get(10))?;
            write_word_before(out, regs.get(11))?;
            write_moment(out, regs, 12, 13)
        }
        Arguments::Creation => {
            write_word_before(out, regs.get(10))?;
            write_word_before(out, regs.get(11))?;
            write_word_before(out, regs.get(12))?;
            write_number(out, u64::from(regs.get(13)))
        }
    }
}

/// A call of the table, with its arguments.
#[tactic(auto, using(crate::proofs::AppendLemmas::appends_both))]
fn write_known_call<W: Write>(out: &mut W, call: Call, regs: &Regs) -> Result<()>
    ensures { OnOk result
        (Appends (W.contents out.old) (W.contents out.new) (call_text_of (Some call) regs.now)) }
{
    out.write_all(name_of(call))?;
    out.write_all(b"(")?;
    write_arguments(out, arguments_of(call), regs)?;
    out.write_all(b")")
}

/// The call that stands in registers.
pub fn write_call<W: Write>(out: &mut W, call: Option<Call>, regs: &Regs) -> Result<()>
    ensures { OnOk result
        (Appends (W.contents out.old) (W.contents out.new) (call_text_of call regs.now)) }
{
    match call {
        Some(call) => write_known_call(out, call, regs),
        None => write_counted(out, b"call ", u64::from(regs.get(17))),
    }
}

/// An answer, and a number behind it where it is 0.
#[tactic(auto, using(crate::proofs::AppendLemmas::appends_both))]
fn write_and_number<W: Write>(out: &mut W, answer: u32, number: u32) -> Result<()>
    ensures { OnOk result
        (Appends (W.contents out.old) (W.contents out.new)
        (with_second answer (decimal number))) }
{
    write_number(out, u64::from(answer))?;
    if answer == 0 {
        return write_counted(out, b", ", u64::from(number));
    }
    Ok(())
}

/// An answer, and a word behind it where it is 0.
#[tactic(auto, using(crate::proofs::AppendLemmas::appends_both))]
fn write_and_word<W: Write>(out: &mut W, answer: u32, word: u32) -> Result<()>
    ensures { OnOk result
        (Appends (W.contents out.old) (W.contents out.new) (with_second answer (hex_text word))) }
{
    write_number(out, u64::from(answer))?;
    if answer == 0 {
        return write_at(out, b", ", word);
    }
    Ok(())
}

/// The answers that stand in registers.
pub fn write_answers<W: Write>(out: &mut W, answers: Answers, regs: &Regs) -> Result<()>
    ensures { OnOk result
        (Appends (W.contents out.old) (W.contents out.new) (answers_text answers regs.now)) }
{
    match answers {
        Answers::One => write_number(out, u64::from(regs.get(10))),
        Answers::AndNumber => write_and_number(out, regs.get(10), regs.get(11)),
        Answers::AndWord => write_and_word(out, regs.get(10), regs.get(11)),
        Answers::Moment => write_moment(out, regs, 10, 11),
    }
}

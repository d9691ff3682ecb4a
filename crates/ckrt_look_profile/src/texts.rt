//! A profile as text.
ghost use Rattle.std.specs.Prelude.{◌≡◌, ◌≤◌, ◌++◌, codes, OnOk};
ghost use Rattle.std.specs.List.{flat_map};
ghost use Rattle.std.specs.Io.KnownBytes.{Appends};
ghost use Rattle.ckrt_inspect.specs.Texts.{hex_text};
ghost use Rattle.ckrt_look_profile.specs.Shares.{steps_of as shares_steps};
ghost use Rattle.ckrt_look_profile.specs.Texts.{awaited_text, function_text, head_text, hundredths, line_of, padded, percent_text, section_text, share_line, share_text, subject_text, top_text, two_digits, wait_text};

use crate::shares::{Share, Subject, steps_of};
use crate::waits::Awaited;
use ckrt_look_calls::{write_counted, write_hex, write_number};
use std::io::{Result, Write};

/// Twenty spaces.
const SPACES: [u8; 20] = *b"                    ";

/// A number in so many columns, up to 20.
#[tactic(auto, using(ckrt_look_calls::proofs::AppendLemmas::appends_both))]
fn write_padded<W: Write>(out: &mut W, width: usize, number: u64) -> Result<()>
    requires { width ≤ 20 }
    ensures { OnOk result
        (Appends (W.contents out.old) (W.contents out.new) (padded width number)) }
{
    let mut buffer = itoa::Buffer::new();
    let digits = buffer.format(number).as_bytes();
    let (spaces, _) = SPACES
        .as_slice()
        .split_at(width.saturating_sub(digits.len()));
    out.write_all(spaces)?;
    out.write_all(digits)
}

/// Two digits of a number below 100.
#[tactic(auto, using(ckrt_look_calls::proofs::AppendLemmas::appends_both))]
fn write_two_digits<W: Write>(out: &mut W, number: u64) -> Result<()>
    ensures { OnOk result
        (Appends (W.contents out.old) (W.contents out.new) (two_digits number)) }
{
    if number < 10 {
        return write_counted(out, b"0", number);
    }
    write_number(out, number)
}

/// The share of all in hundredths of a percent.
fn hundredths(steps: u64, all: u64) -> u64
    ensures { result ≡ hundredths steps all }
{
    if all == 0 {
        return 0;
    }
    (u128::from(steps.min(all)) * 10000 / u128::from(all)) as u64
}

/// A share in percent.
#[tactic(auto, using(ckrt_look_calls::proofs::AppendLemmas::appends_both))]
fn write_percent<W: Write>(out: &mut W, hundredths: u64) -> Result<()>
    ensures { OnOk result
        (Appends (W.contents out.old) (W.contents out.new) (percent_text hundredths)) }
{
    write_padded(out, 4, hundredths / 100)?;
    out.write_all(b".")?;
    write_two_digits(out, hundredths % 100)?;
    out.write_all(b"%")
}

/// A number of steps, and its share.
#[tactic(auto, using(ckrt_look_calls::proofs::AppendLemmas::appends_both))]
fn write_share<W: Write>(out: &mut W, all: u64, steps: u64) -> Result<()>
    ensures { OnOk result
        (Appends (W.contents out.old) (W.contents out.new) (share_text all steps)) }
{
    write_percent(out, hundredths(steps, all))?;
    write_padded(out, 18, steps)?;
    out.write_all(b"  ")
}

/// A word, and an address behind it.
#[tactic(auto, using(ckrt_look_calls::proofs::AppendLemmas::appends_both))]
fn write_at<W: Write>(out: &mut W, word: &[u8], address: u32) -> Result<()>
    ensures { OnOk result
        (Appends (W.contents out.old) (W.contents out.new) (word.now ++ hex_text address)) }
{
    out.write_all(word)?;
    write_hex(out, address)
}

/// What is waited for.
fn write_awaited<W: Write>(out: &mut W, awaited: Awaited) -> Result<()>
    ensures { OnOk result
        (Appends (W.contents out.old) (W.contents out.new) (awaited_text awaited)) }
{
    match awaited {
        Awaited::Input => out.write_all(b"input"),
        Awaited::Sleep => out.write_all(b"sleep"),
        Awaited::Join(thread) => write_counted(out, b"join ", u64::from(thread)),
        Awaited::Mutex(address) => write_at(out, b"mutex ", address),
        Awaited::Condition(address) => write_at(out, b"cond ", address),
        Awaited::Barrier(address) => write_at(out, b"barrier ", address),
        Awaited::Read(address) => write_at(out, b"read ", address),
        Awaited::Write(address) => write_at(out, b"write ", address),
    }
}

/// A function, and how often it was called.
#[tactic(auto, using(ckrt_look_calls::proofs::AppendLemmas::appends_both))]
fn write_function<W: Write>(out: &mut W, entry: u32, calls: u64) -> Result<()>
    ensures { OnOk result
        (Appends (W.contents out.old) (W.contents out.new)
        (function_text entry calls)) }
{
    out.write_all(b"pc ")?;
    write_hex(out, entry)?;
    write_counted(out, b", calls ", calls)
}

/// A thread that waited, and for what.
#[tactic(auto, using(ckrt_look_calls::proofs::AppendLemmas::appends_both))]
fn write_wait<W: Write>(out: &mut W, thread: u8, awaited: Awaited) -> Result<()>
    ensures { OnOk result
        (Appends (W.contents out.old) (W.contents out.new)
        (wait_text thread awaited)) }
{
    write_counted(out, b"thread ", u64::from(thread))?;
    out.write_all(b" waits ")?;
    write_awaited(out, awaited)
}

/// What steps are of.
fn write_subject<W: Write>(out: &mut W, subject: Subject) -> Result<()>
    ensures { OnOk result
        (Appends (W.contents out.old) (W.contents out.new) (subject_text subject)) }
{
    match subject {
        Subject::Function(entry, calls) => write_function(out, entry, calls),
        Subject::Thread(thread) => write_counted(out, b"thread ", thread as u64),
        Subject::Wait(thread, awaited) => write_wait(out, thread, awaited),
    }
}

/// The line of a share.
#[tactic(auto, using(ckrt_look_calls::proofs::AppendLemmas::appends_both, ckrt_look_calls::proofs::AppendLemmas::appends_none))]
fn write_line<W: Write>(out: &mut W, all: u64, share: &Share) -> Result<()>
    ensures { OnOk result
        (Appends (W.contents out.old) (W.contents out.new) (share_line all share.now)) }
{
    if share.steps == 0 {
        return Ok(());
    }
    write_share(out, all, share.steps)?;
    write_subject(out, share.subject)?;
    out.write_all(b"\n")
}

/// A line of steps that a word says more of.
#[tactic(auto, using(ckrt_look_calls::proofs::AppendLemmas::appends_both, ckrt_look_calls::proofs::AppendLemmas::appends_none))]
fn write_word_line<W: Write>(out: &mut W, all: u64, steps: u64, word: &[u8]) -> Result<()>
    ensures { OnOk result
        (Appends (W.contents out.old) (W.contents out.new) (line_of all steps word.now)) }
{
    if steps == 0 {
        return Ok(());
    }
    write_share(out, all, steps)?;
    out.write_all(word)?;
    out.write_all(b"\n")
}

/// The lines of shares.
#[tactic(auto, using(ckrt_look_calls::proofs::AppendLemmas::appends_none, ckrt_look_calls::proofs::AppendLemmas::appends_more, ckrt_look_calls::proofs::AppendLemmas::appends_all))]
fn write_lines<W: Write>(out: &mut W, all: u64, shares: &[Share]) -> Result<()>
    ensures { OnOk result
        (Appends (W.contents out.old) (W.contents out.new)
        (flat_map (share_line all) shares.now)) }
{
    for share in shares {
        write_line(out, all, share)?;
    }
    Ok(())
}

/// How many shares have a line of their own.
const TOP: usize = 20;

/// The first of shares, and the steps of the others.
#[tactic(auto, using(ckrt_look_calls::proofs::AppendLemmas::appends_both))]
fn write_parts<W: Write>(out: &mut W, all: u64, first: &[Share], others: &[Share]) -> Result<()>
    ensures { OnOk result
        (Appends (W.contents out.old) (W.contents out.new)
        (flat_map (share_line all) first.now
        ++ line_of all (shares_steps others.now) (codes "others"))) }
{
    write_lines(out, all, first)?;
    write_word_line(out, all, steps_of(others), b"others")
}

/// The shares with the most steps, which stand first.
#[tactic(auto, using(std::proofs::lemmas::List::take_min, std::proofs::lemmas::List::drop_min))]
fn write_top<W: Write>(out: &mut W, all: u64, shares: &[Share]) -> Result<()>
    ensures { OnOk result
        (Appends (W.contents out.old) (W.contents out.new) (top_text all shares.now)) }
{
    let (first, others) = shares.split_at(TOP.min(shares.len()));
    write_parts(out, all, first, others)
}

/// The names of the columns.
#[tactic(auto, using(ckrt_look_calls::proofs::AppendLemmas::appends_both))]
fn write_head<W: Write>(out: &mut W, head: &[u8]) -> Result<()>
    ensures { OnOk result
        (Appends (W.contents out.old) (W.contents out.new) (head_text head.now)) }
{
    out.write_all(b"\n  share             steps  ")?;
    out.write_all(head)?;
    out.write_all(b"\n")
}

/// What a section of the table is of, and the steps of no share, with a word for them.
#[derive(Clone, Copy, Drop)]
pub(crate) struct Section<'a> {
    pub(crate) head: &'a [u8],
    pub(crate) shares: &'a [Share],
    pub(crate) rest: u64,
    pub(crate) word: &'a [u8],
}

/// A section of the table.
#[tactic(auto, using(ckrt_look_calls::proofs::AppendLemmas::appends_both))]
pub(crate) fn write_section<W: Write>(out: &mut W, all: u64, section: &Section<'_>) -> Result<()>
    ensures { OnOk result
        (Appends (W.contents out.old) (W.contents out.new)
        (section_text all section.now.head.now section.now.shares.now section.now.rest
        section.now.word.now)) }
{
    write_head(out, section.head)?;
    write_top(out, all, section.shares)?;
    write_word_line(out, all, section.rest, section.word)
}

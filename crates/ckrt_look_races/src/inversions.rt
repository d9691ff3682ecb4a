//! Cycles of locks, as text.
ghost use Rattle.std.specs.Prelude.{◌≡◌, ◌++◌, codes, OnOk};
ghost use Rattle.std.specs.List.{flat_map};
ghost use Rattle.std.specs.Io.KnownBytes.{Appends};
ghost use Rattle.ckrt_inspect.specs.Texts.{hex_text};
ghost use Rattle.ckrt_look_races.specs.Inversions.{another, at_text, call_text, count_text, cycle_text, doing_text, full_text, inversion_line, link_piece, link_text, lock_text, moment_at, more_line, more_text, no_cycle_text, reading_text, span_text, taking_text, took_line, took_text, who_text};
ghost use Rattle.ckrt_look_races.specs.Moments.{place_of};
ghost use Rattle.ckrt_look_calls.specs.Moments.{position_text};

use crate::moment::{moment_of, place_of};
use ckrt_look_calls::{
    Moment, write_address, write_counted, write_moment, write_number, write_position, write_times,
};
use ckrt_look_clocks::{Inversion, Link, LockName, Place, Taking};
use std::io::{Result, Write};

/// Whether a read-write lock is taken to read, or to write.
fn reading_text(reads: bool) -> &'static [u8]
    ensures { result.now ≡ reading_text reads }
{
    if reads {
        b" to read".as_slice()
    } else {
        b" to write".as_slice()
    }
}

/// A read-write lock, and how it is taken.
#[tactic(auto, using(ckrt_look_calls::proofs::AppendLemmas::appends_both))]
fn write_rwlock<W: Write>(out: &mut W, address: u32, reads: bool) -> Result<()>
    ensures { OnOk result
        (Appends (W.contents out.old) (W.contents out.new)
        ((codes "rwlock " ++ hex_text address) ++ reading_text reads)) }
{
    write_address(out, b"rwlock ", address)?;
    out.write_all(reading_text(reads))
}

/// A lock, and how it is taken.
fn write_lock<W: Write>(out: &mut W, lock: LockName, reads: bool) -> Result<()>
    ensures { OnOk result
        (Appends (W.contents out.old) (W.contents out.new) (lock_text lock reads)) }
{
    match lock {
        LockName::Mutex(address) => write_address(out, b"mutex ", address),
        LockName::RwLock(address) => write_rwlock(out, address, reads),
    }
}

/// By which call.
#[tactic(auto, using(ckrt_look_calls::proofs::AppendLemmas::appends_both))]
fn write_call<W: Write>(out: &mut W, taking: &Taking) -> Result<()>
    ensures { OnOk result
        (Appends (W.contents out.old) (W.contents out.new) (call_text taking.now)) }
{
    write_address(out, b" pc ", taking.pc)?;
    write_address(out, b" from ", taking.caller)
}

#[tactic(auto, using(ckrt_look_calls::proofs::AppendLemmas::appends_both))]
fn write_taking<W: Write>(out: &mut W, taking: &Taking) -> Result<()>
    ensures { OnOk result
        (Appends (W.contents out.old) (W.contents out.new) (taking_text taking.now)) }
{
    write_lock(out, taking.lock, taking.reads)?;
    write_call(out, taking)
}

/// The same behind a verb.
#[tactic(auto, using(ckrt_look_calls::proofs::AppendLemmas::appends_both))]
fn write_doing<W: Write>(out: &mut W, verb: &[u8], taking: &Taking) -> Result<()>
    ensures { OnOk result
        (Appends (W.contents out.old) (W.contents out.new) (doing_text verb.now taking.now)) }
{
    out.write_all(verb)?;
    write_taking(out, taking)
}

#[tactic(auto, using(ckrt_look_calls::proofs::AppendLemmas::appends_both))]
fn write_at<W: Write>(out: &mut W, place: Place) -> Result<()>
    ensures { OnOk result
        (Appends (W.contents out.old) (W.contents out.new) (at_text place)) }
{
    write_number(out, place.event)?;
    write_counted(out, b"+", u64::from(place.step))
}

/// Which thread, and where.
#[tactic(auto, using(ckrt_look_calls::proofs::AppendLemmas::appends_both))]
fn write_who<W: Write>(out: &mut W, link: &Link) -> Result<()>
    ensures { OnOk result
        (Appends (W.contents out.old) (W.contents out.new) (who_text link.now)) }
{
    write_at(out, link.taken.place)?;
    write_counted(out, b" thread ", u64::from(link.thread))
}

/// A thread, and what it takes.
#[tactic(auto, using(ckrt_look_calls::proofs::AppendLemmas::appends_both))]
fn write_link<W: Write>(out: &mut W, link: &Link) -> Result<()>
    ensures { OnOk result
        (Appends (W.contents out.old) (W.contents out.new) (link_text link.now)) }
{
    write_who(out, link)?;
    write_doing(out, b" takes ", &link.taken)
}

/// The same with a comma, if there is one.
#[tactic(auto, using(ckrt_look_calls::proofs::AppendLemmas::appends_none, ckrt_look_calls::proofs::AppendLemmas::appends_both))]
fn write_link_piece<W: Write>(out: &mut W, link: &Option<Link>) -> Result<()>
    ensures { OnOk result
        (Appends (W.contents out.old) (W.contents out.new) (link_piece link.now)) }
{
    match link {
        Some(link) => {
            write_link(out, link)?;
            out.write_all(b", ")
        }
        None => Ok(()),
    }
}

/// All of them.
#[tactic(auto, using(ckrt_look_calls::proofs::AppendLemmas::appends_none, ckrt_look_calls::proofs::AppendLemmas::appends_more, ckrt_look_calls::proofs::AppendLemmas::appends_all))]
fn write_link_pieces<W: Write>(out: &mut W, links: &[Option<Link>]) -> Result<()>
    ensures { OnOk result
        (Appends (W.contents out.old) (W.contents out.new) (flat_map link_piece links.now)) }
{
    for link in links {
        write_link_piece(out, link)?;
    }
    Ok(())
}

/// Writes the threads of a cycle, with what each took, and how many they are. It takes no memory.
#[tactic(auto, using(ckrt_look_calls::proofs::AppendLemmas::appends_both))]
pub fn write_cycle<W: Write>(out: &mut W, inversion: &Inversion) -> Result<()>
    ensures { OnOk result
        (Appends (W.contents out.old) (W.contents out.new) (cycle_text inversion.now)) }
{
    write_link_pieces(out, inversion.links.as_slice())?;
    write_counted(out, b"a cycle of ", inversion.length as u64)
}

/// How often.
#[tactic(auto, using(ckrt_look_calls::proofs::AppendLemmas::appends_both))]
fn write_count<W: Write>(out: &mut W, count: u64) -> Result<()>
    ensures { OnOk result
        (Appends (W.contents out.old) (W.contents out.new) (count_text count)) }
{
    out.write_all(b", ")?;
    write_times(out, count)
}

/// How often, and the line's end.
#[tactic(auto, using(ckrt_look_calls::proofs::AppendLemmas::appends_both))]
fn write_end<W: Write>(out: &mut W, count: u64) -> Result<()>
    ensures { OnOk result
        (Appends (W.contents out.old) (W.contents out.new) (count_text count ++ codes "\n")) }
{
    write_count(out, count)?;
    out.write_all(b"\n")
}

/// The line of a cycle.
#[tactic(auto, using(ckrt_look_calls::proofs::AppendLemmas::appends_both))]
pub(crate) fn write_inversion_line<W: Write>(out: &mut W, inversion: &Inversion) -> Result<()>
    ensures { OnOk result
        (Appends (W.contents out.old) (W.contents out.new) (inversion_line inversion.now)) }
{
    write_cycle(out, inversion)?;
    write_end(out, inversion.count)
}

/// The moment at which a thread of a cycle took its lock.
pub(crate) fn moment_at(link: &Link) -> Moment
    ensures { result ≡ moment_at link.now }
{
    moment_of(link.thread, link.taken.place)
}

/// What it held then.
#[tactic(auto, using(ckrt_look_calls::proofs::AppendLemmas::appends_both))]
fn write_took<W: Write>(out: &mut W, link: &Link) -> Result<()>
    ensures { OnOk result
        (Appends (W.contents out.old) (W.contents out.new) (took_text link.now)) }
{
    write_moment(out, &moment_at(link))?;
    write_doing(out, b" took ", &link.held)
}

/// When it took that, and the line's end.
#[tactic(auto, using(ckrt_look_calls::proofs::AppendLemmas::appends_both))]
fn write_took_at<W: Write>(out: &mut W, place: Place) -> Result<()>
    ensures { OnOk result
        (Appends (W.contents out.old) (W.contents out.new)
        (position_text (codes " at ") (place_of place) ++ codes "\n")) }
{
    write_position(out, b" at ", place_of(place))?;
    out.write_all(b"\n")
}

/// The line of what a thread held.
#[tactic(auto, using(ckrt_look_calls::proofs::AppendLemmas::appends_both))]
pub(crate) fn write_took_line<W: Write>(out: &mut W, link: &Link) -> Result<()>
    ensures { OnOk result
        (Appends (W.contents out.old) (W.contents out.new) (took_line link.now)) }
{
    write_took(out, link)?;
    write_took_at(out, link.held.place)
}

/// How often there was a cycle without a row.
#[tactic(auto, using(ckrt_look_calls::proofs::AppendLemmas::appends_both))]
fn write_more<W: Write>(out: &mut W, others: u64) -> Result<()>
    ensures { OnOk result
        (Appends (W.contents out.old) (W.contents out.new) (more_text others)) }
{
    out.write_all(b"and ")?;
    write_times(out, others)
}

/// The same as a line, if there was one.
#[tactic(auto, using(ckrt_look_calls::proofs::AppendLemmas::appends_none, ckrt_look_calls::proofs::AppendLemmas::appends_both))]
pub(crate) fn write_more_line<W: Write>(out: &mut W, others: u64) -> Result<()>
    ensures { OnOk result
        (Appends (W.contents out.old) (W.contents out.new) (more_line others)) }
{
    if others == 0 {
        return Ok(());
    }
    write_more(out, others)?;
    out.write_all(b" elsewhere in a cycle\n")
}

/// Where it was looked.
#[tactic(auto, using(ckrt_look_calls::proofs::AppendLemmas::appends_both))]
fn write_span<W: Write>(out: &mut W, begin: u64, end: u64) -> Result<()>
    ensures { OnOk result
        (Appends (W.contents out.old) (W.contents out.new) (span_text begin end)) }
{
    write_counted(out, b"no cycle of locks in events ", begin)?;
    write_counted(out, b" to ", end)
}

/// Where there may be one.
fn another(begin: u64) -> &'static [u8]
    ensures { result.now ≡ another begin }
{
    if begin == 0 {
        b" of this schedule; another one may have one\n".as_slice()
    } else {
        b" of this schedule; events before these were not looked at, and another schedule may have one\n".as_slice()
    }
}

/// Where there was none.
#[tactic(auto, using(ckrt_look_calls::proofs::AppendLemmas::appends_both))]
pub(crate) fn write_no_cycle<W: Write>(out: &mut W, begin: u64, end: u64) -> Result<()>
    ensures { OnOk result
        (Appends (W.contents out.old) (W.contents out.new) (no_cycle_text begin end)) }
{
    write_span(out, begin, end)?;
    out.write_all(another(begin))
}

/// That the room was used up, if it was.
#[tactic(auto, using(ckrt_look_calls::proofs::AppendLemmas::appends_none))]
pub(crate) fn write_full<W: Write>(out: &mut W, is_full: bool) -> Result<()>
    ensures { OnOk result
        (Appends (W.contents out.old) (W.contents out.new) (full_text is_full)) }
{
    if is_full {
        return out.write_all(
            b"the room for orders of locks was used up, later ones were not looked at\n",
        );
    }
    Ok(())
}
